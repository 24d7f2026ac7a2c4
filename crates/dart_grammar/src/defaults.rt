//! Where the default of a parameter ends.
ghost use Rattle.std.specs.Prelude.{◌≡◌, ◌<◌, ◌≤◌, ◌+◌, ◌^◌, false, zero, MatchOption, IfSome};
ghost use Rattle.dart_grammar.specs.Shapes as spec;
ghost use Rattle.dart_syntax.specs.declared.tokens.Form.TheVariants as f;
ghost use Rattle.dart_grammar.specs.Ends.{seen, GoesOn, EndsAt};

use crate::marks::{is_as, is_sign, next};
use dart_syntax::{Form, Sign, Token, Word};

/// What is open at a place in a default.
#[derive(Clone, Copy)]
struct OpenDefault {
    brackets: usize,
    /// The open `<` of type arguments.
    angles: usize,
    /// Whether an operand ends here.
    operand: bool,
    /// Whether the place is in the type behind `new`, `is` or `as`.
    typed: bool,
}

// Whether the sign opens a bracket.
fn is_opening(sign: Sign) -> bool
    ensures { result ≡ spec.opens (f.Sign sign) }
{
    matches!(sign, Sign::OpenParen | Sign::OpenBracket | Sign::OpenBrace)
}

// Whether the sign closes a bracket.
fn is_closing(sign: Sign) -> bool
    ensures { result ≡ spec.closes (f.Sign sign) }
{
    matches!(
        sign,
        Sign::CloseParen | Sign::CloseBracket | Sign::CloseBrace
    )
}

/// Whether the token opens a bracket.
pub fn opens(form: &Form) -> bool
    ensures { result ≡ spec.opens form.now }
{
    match form {
        Form::Enter => true,
        Form::Sign(sign) => is_opening(*sign),
        _ => false,
    }
}

/// Whether the token closes a bracket.
pub fn closes(form: &Form) -> bool
    ensures { result ≡ spec.closes form.now }
{
    match form {
        Form::Leave => true,
        Form::Sign(sign) => is_closing(*sign),
        _ => false,
    }
}

fn ends_operand(before: bool, form: &Form) -> bool
    ensures { result ≡ spec.ends_operand before form.now }
{
    match form {
        Form::Name(_) | Form::Number(_) | Form::TextClose => true,
        Form::Word(word) => matches!(
            word,
            Word::This | Word::Super | Word::Null | Word::True | Word::False
        ),
        Form::Sign(Sign::Increment | Sign::Decrement) => before,
        _ => false,
    }
}

fn is_in_type(operand: bool, typed: bool, form: &Form) -> bool
    ensures { result ≡ spec.is_in_type operand typed form.now }
{
    match form {
        Form::Word(word) => matches!(word, Word::New | Word::Is),
        Form::Name(_) => typed || (operand && is_as(form)),
        Form::Sign(Sign::Dot | Sign::Not) => typed,
        _ => false,
    }
}

impl OpenDefault {
    #[tactic(auto, using(crate::proofs::Opened::in_brackets))]
    fn in_brackets(self, token: &Token) -> OpenDefault
        requires some { 0 < self.brackets }
        requires few { self.brackets + self.angles + 1 < 2 ^ 64 }
        ensures next { GoesOn self token.now result }
        ensures few { result.brackets + result.angles ≤ self.brackets + self.angles + 1 }
    {
        if opens(&token.form) {
            OpenDefault {
                brackets: self.brackets + 1,
                ..self
            }
        } else if closes(&token.form) {
            OpenDefault {
                brackets: self.brackets - 1,
                angles: self.angles,
                operand: true,
                typed: false,
            }
        } else {
            self
        }
    }

    #[tactic(auto, using(crate::proofs::Opened::in_angles))]
    fn in_angles(self, token: &Token) -> OpenDefault
        requires none { self.brackets ≡ 0 }
        requires some { 0 < self.angles }
        requires few { self.angles + 1 < 2 ^ 64 }
        ensures next { GoesOn self token.now result }
        ensures few { result.brackets + result.angles ≤ self.brackets + self.angles + 1 }
    {
        if is_sign(Sign::Less, &token.form) {
            OpenDefault {
                angles: self.angles + 1,
                ..self
            }
        } else if is_sign(Sign::Greater, &token.form) {
            OpenDefault {
                angles: self.angles - 1,
                ..self
            }
        } else {
            self
        }
    }

    #[tactic(auto, using(crate::proofs::Opened::outside))]
    fn outside(self, token: &Token) -> Option<OpenDefault>
        requires brackets { self.brackets ≡ 0 }
        requires angles { self.angles ≡ 0 }
        ensures next { MatchOption result (EndsAt self token.now) (GoesOn self token.now) }
        ensures few { IfSome result (λ x. x.brackets + x.angles ≤ 1) }
    {
        let form = &token.form;
        if is_sign(Sign::Comma, form) || closes(form) {
            None
        } else if opens(form) {
            Some(OpenDefault {
                brackets: 1,
                ..self
            })
        } else if is_sign(Sign::Less, form) && (self.typed || !self.operand) {
            Some(OpenDefault { angles: 1, ..self })
        } else {
            Some(OpenDefault {
                brackets: 0,
                angles: 0,
                operand: ends_operand(self.operand, form),
                typed: is_in_type(self.operand, self.typed, form),
            })
        }
    }

    // What is open behind the token; none where the default ends before it.
    fn after(self, token: &Token) -> Option<OpenDefault>
        requires { self.brackets + self.angles + 1 < 2 ^ 64 }
        ensures next { MatchOption result (EndsAt self token.now) (GoesOn self token.now) }
        ensures few { IfSome result (λ x. x.brackets + x.angles ≤ self.brackets + self.angles + 1) }
    {
        if self.brackets > 0 {
            Some(self.in_brackets(token))
        } else if self.angles > 0 {
            Some(self.in_angles(token))
        } else {
            self.outside(token)
        }
    }
}

/// At the comma or the bracket that ends the default that stands here.
#[tactic(auto, unfolding(crate::specs::Shapes::default_end))]
pub fn default_end(ts: &[Token]) -> Option<&[Token]>
    ensures { seen result ≡ spec.default_end 0 0 false false ts.now }
{
    let count = ts.len();
    let mut open = OpenDefault {
        brackets: 0,
        angles: 0,
        operand: false,
        typed: false,
    };
    let mut rest = ts;
    'tokens: while let Some((first, more)) = next(rest) {
        prove!(open.brackets + open.angles < count);
        match open.after(first) {
            Some(after) => open = after,
            None => return Some(rest),
        }
        rest = more;
    }
    None
}
