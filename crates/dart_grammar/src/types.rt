//! Where types end.
ghost use Rattle.std.specs.Prelude.{◌≡◌};
ghost use Rattle.dart_grammar.specs.Shapes as spec;
ghost use Rattle.dart_grammar.specs.Ends.{seen};

use crate::marks::{behind, is_name, is_sign, next, next_name, next_sign, next_word};
use dart_syntax::{Form, Sign, Token, Word};

/// Behind the sign, where it stands here.
pub fn past(sign: Sign, ts: &[Token]) -> Option<&[Token]>
    ensures { seen result ≡ spec.past sign ts.now }
{
    if next_sign(sign, ts) {
        Some(behind(ts))
    } else {
        None
    }
}

/// Behind a name, or two with a dot between.
pub fn dotted_end(ts: &[Token]) -> Option<&[Token]>
    ensures { seen result ≡ spec.dotted_end ts.now }
{
    if !next_name(ts) {
        return None;
    }
    let after = behind(ts);
    if next_sign(Sign::Dot, after) && next_name(behind(after)) {
        Some(behind(behind(after)))
    } else {
        Some(after)
    }
}

fn is_of_types(form: &Form) -> bool
    ensures { result ≡ spec.is_of_types form.now }
{
    is_name(form) || is_sign(Sign::Dot, form) || is_sign(Sign::Comma, form)
}

// Behind the `>` that closes the `<` that stands here.
#[tactic(auto, unfolding(crate::specs::Shapes::angles_end))]
fn angles_end(ts: &[Token]) -> Option<&[Token]>
    ensures { seen result ≡ spec.angles_end 0 ts.now }
{
    let count = ts.len();
    let mut rest = ts;
    let mut open = 0usize;
    'tokens: while let Some((first, more)) = next(rest) {
        rest = more;
        if is_sign(Sign::Less, &first.form) {
            prove!(open < count);
            open += 1;
        } else if is_sign(Sign::Greater, &first.form) {
            if open == 1 {
                return Some(rest);
            }
            open = open.saturating_sub(1);
        } else if !is_of_types(&first.form) {
            return None;
        }
    }
    None
}

/// Behind type arguments, where there are some.
pub fn arguments_end(ts: &[Token]) -> Option<&[Token]>
    ensures { seen result ≡ spec.arguments_end ts.now }
{
    if next_sign(Sign::Less, ts) {
        angles_end(ts)
    } else {
        Some(ts)
    }
}

/// Behind a type.
pub fn type_end(ts: &[Token]) -> Option<&[Token]>
    ensures { seen result ≡ spec.type_end ts.now }
{
    arguments_end(dotted_end(ts)?)
}

/// Whether a type, or `void`, stands before the name that is declared.
pub fn begins_type(ts: &[Token]) -> bool
    ensures { result ≡ spec.begins_type ts.now }
{
    let after = behind(ts);
    next_word(Word::Void, ts)
        || (next_name(ts)
            && (next_name(after)
                || next_word(Word::This, after)
                || next_sign(Sign::Dot, after)
                || next_sign(Sign::Less, after)))
}

/// Behind a type or `void`, where one stands before a name.
pub fn result_end(ts: &[Token]) -> Option<&[Token]>
    ensures { seen result ≡ spec.result_end ts.now }
{
    if next_word(Word::Void, ts) {
        Some(behind(ts))
    } else if begins_type(ts) {
        type_end(ts)
    } else {
        Some(ts)
    }
}
