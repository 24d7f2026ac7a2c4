//! Texts, with what is interpolated.
ghost use Rattle.std.specs.Prelude.{◌≡◌, length, [], IfOk};
ghost use Rattle.dart_grammar.specs.Marks as marks;
ghost use Rattle.dart_grammar.specs.Trees.{first_of, with_behind};
ghost use Rattle.expr_parser.specs.Cursor.{Gives};
ghost use Rattle.expr_parser.specs.Knot.{inner_at};
ghost use Rattle.expr_parser.specs.Nests.{Nests};
ghost use Rattle.expr_parser.specs.Texts as spec;

use crate::fault::Fault;
use crate::grammar::Grammar;
use code_units::Text;
use dart_grammar::marks::{behind, next, next_text_open};
use dart_grammar::trees::{Expr, Interpolation, Parameters, Stmt};
use dart_syntax::{Form, Token};
use sqlite_items::{Boxed, Items};
use std::alloc::{AllocError, Global};

/// Texts one behind another, as one: the first units, the parts behind them, and where they end.
#[derive(Drop)]
pub struct Merged {
    pub first: Text,
    pub parts: Items<Interpolation>,
    pub to: u32,
}

impl Merged {
    // With the units behind the last piece.
    #[tactic(auto, using(crate::proofs::Pieces::behind_last, crate::proofs::Pieces::first_stays), unfolding(dart_grammar::specs::Trees::with_behind))]
    fn with_piece(self, units: &[u16]) -> Result<Merged, AllocError>
        ensures { IfOk result (λ x. x ≡ record { first = first_of self.first self.parts units.now; parts = with_behind units.now self.parts; to = self.to }) }
    {
        let Merged {
            mut first,
            mut parts,
            to,
        } = self;
        match parts.pop() {
            Some(Interpolation { value, mut behind }) => {
                behind.extend(units)?;
                parts.push(Interpolation { value, behind })?;
            }
            None => first.extend(units)?,
        }
        Ok(Merged { first, parts, to })
    }

    // The two texts as one.
    fn merged(self, next: Merged) -> Result<Merged, AllocError>
        ensures { IfOk result (λ x. x ≡ spec.merged self next) }
    {
        let Merged { first, parts, to } = next;
        let mut whole = self.with_piece(first.as_slice())?;
        whole.parts.append(parts)?;
        whole.to = to;
        Ok(whole)
    }
}

fn next_enter(ts: &[Token]) -> bool
    ensures { result ≡ marks.next spec.is_enter ts.now }
{
    match next(ts) {
        Some((first, _)) => matches!(first.form, Form::Enter),
        None => false,
    }
}

// Behind the end of an interpolation.
#[tactic(auto, unfolding(crate::specs::Texts::past_leave))]
fn past_leave(ts: &[Token]) -> Result<&[Token], Fault>
    ensures { Gives (λ x. x.now) result (spec.past_leave ts.now) }
{
    let Some((first, rest)) = next(ts) else {
        return Err(Fault::NotDerived);
    };
    match &first.form {
        Form::Leave => Ok(rest),
        _ => Err(Fault::NotDerived),
    }
}

// A copy of the piece.
#[tactic(auto, unfolding(crate::specs::Texts::piece))]
pub fn piece(ts: &[Token]) -> Result<(Text, &[Token]), Fault>
    ensures { Gives (λ x. (x.0, x.1.now)) result (spec.piece ts.now) }
{
    let Some((first, rest)) = next(ts) else {
        return Err(Fault::NotDerived);
    };
    match &first.form {
        Form::Piece(units) => Ok((units.copy()?, rest)),
        _ => Err(Fault::NotDerived),
    }
}

// The end of a text, and where it ends.
#[tactic(auto, unfolding(crate::specs::Texts::text_close))]
pub fn text_close(ts: &[Token]) -> Result<(u32, &[Token]), Fault>
    ensures { Gives (λ x. (x.0, x.1.now)) result (spec.text_close ts.now) }
{
    let Some((first, rest)) = next(ts) else {
        return Err(Fault::NotDerived);
    };
    match &first.form {
        Form::TextClose => Ok((first.to, rest)),
        _ => Err(Fault::NotDerived),
    }
}

impl<
    E: Fn(Global, &[Token], usize) -> Result<(Boxed<Expr>, &[Token]), Fault>,
    S: Fn(Global, &[Token], usize) -> Result<(Boxed<Stmt>, &[Token]), Fault>,
    P: Fn(Global, &[Token], usize) -> Result<(Parameters, &[Token]), Fault>,
> Grammar<E, S, P> {
    // An interpolation, and the piece behind it.
    #[tactic(auto, unfolding(crate::specs::Texts::interpolation))]
    fn interpolation<'t>(&self, ts: &'t [Token]) -> Result<(Interpolation, &'t [Token]), Fault>
        requires { Nests self.now.depth (E.pre self.now.expr) (E.post self.now.expr) (S.pre self.now.stmt) (S.post self.now.stmt) (P.pre self.now.parameters) (P.post self.now.parameters) }
        ensures { Gives (λ x. (x.0, x.1.now)) result (spec.interpolation (inner_at self.now.depth) ts.now) }
    {
        let (value, after) = self.expr(ts)?;
        let (behind, rest) = piece(past_leave(after)?)?;
        Ok((Interpolation { value, behind }, rest))
    }

    // Interpolations up to the text's end, and where it ends.
    #[tactic(auto, using(crate::proofs::Turns::one_turn, crate::proofs::Turns::no_turn), unfolding(crate::specs::Texts::parts_from))]
    fn parts<'t>(
        &self,
        ts: &'t [Token],
    ) -> Result<((Items<Interpolation>, u32), &'t [Token]), Fault>
        requires { Nests self.now.depth (E.pre self.now.expr) (E.post self.now.expr) (S.pre self.now.stmt) (S.post self.now.stmt) (P.pre self.now.parameters) (P.post self.now.parameters) }
        ensures { Gives (λ x. ((x.0.0, x.0.1), x.1.now)) result (spec.parts_from (inner_at self.now.depth) (length ts.now) [] ts.now) }
    {
        let mut found = Items::new(self.alloc);
        let mut rest = ts;
        for _turn in 0..ts.len() {
            if !next_enter(rest) {
                let (end, after) = text_close(rest)?;
                return Ok(((found, end), after));
            }
            let (part, after) = self.interpolation(behind(rest))?;
            found.push(part)?;
            rest = after;
        }
        Err(Fault::NotDerived)
    }

    // A text, behind what opens it.
    #[tactic(auto, unfolding(crate::specs::Texts::text))]
    fn text<'t>(&self, ts: &'t [Token]) -> Result<(Merged, &'t [Token]), Fault>
        requires { Nests self.now.depth (E.pre self.now.expr) (E.post self.now.expr) (S.pre self.now.stmt) (S.post self.now.stmt) (P.pre self.now.parameters) (P.post self.now.parameters) }
        ensures { Gives (λ x. (x.0, x.1.now)) result (spec.text (inner_at self.now.depth) ts.now) }
    {
        let (first, after) = piece(ts)?;
        let ((parts, to), rest) = self.parts(after)?;
        Ok((Merged { first, parts, to }, rest))
    }

    /// One text or more.
    #[tactic(auto, using(crate::proofs::Turns::one_turn, crate::proofs::Turns::no_turn), unfolding(crate::specs::Texts::texts, crate::specs::Texts::texts_from))]
    pub fn texts<'t>(&self, ts: &'t [Token]) -> Result<(Merged, &'t [Token]), Fault>
        requires { Nests self.now.depth (E.pre self.now.expr) (E.post self.now.expr) (S.pre self.now.stmt) (S.post self.now.stmt) (P.pre self.now.parameters) (P.post self.now.parameters) }
        ensures { Gives (λ x. (x.0, x.1.now)) result (spec.texts (inner_at self.now.depth) ts.now) }
    {
        let (mut found, mut rest) = self.text(behind(ts))?;
        for _turn in 0..ts.len() {
            if !next_text_open(rest) {
                return Ok((found, rest));
            }
            let (next, after) = self.text(behind(rest))?;
            found = found.merged(next)?;
            rest = after;
        }
        Err(Fault::NotDerived)
    }
}
