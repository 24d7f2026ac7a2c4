//! Operators.

ghost use Rattle.std.specs.Prelude.{◌≡◌, ◌++◌, ◌+ℤ◌, ◌-ℤ◌, ◌*ℤ◌, length};
ghost use Rattle.store_lists.specs.Limits.{is_length};
ghost use Rattle.js_meaning.specs.Operators as spec;
ghost use Rattle.js_meaning.specs.Nests.{IsOutcome, at};

use crate::forms::{Level, left, stuck};
use crate::state::{Jump, Spot, State};
use js_store::{MAX_NUMBER, SharedText, Value, is_length};
use js_tree::JsOperator;

/// Whether the number is no farther from 0 than 2^53 - 1.
fn in_range(number: i128) -> bool
    ensures { result ≡ spec.in_range number }
{
    number.unsigned_abs() <= MAX_NUMBER as u128
}

/// Whether a text may have the units of two.
fn fits(s: &SharedText, t: &SharedText) -> bool
    ensures { result ≡ is_length (length (s.now ++ t.now)) }
{
    match s.len().checked_add(t.len()) {
        Some(count) => is_length(count),
        None => false,
    }
}

impl<'a> Level<'a> {
    #[tactic(auto, using(crate::proofs::Ranges::fits), unfolding(crate::specs::Operators::number))]
    pub(crate) fn number(&self, state: &mut State<'a>, number: i128) -> Result<Value<'a>, Jump<'a>>
        ensures { IsOutcome (at (spec.number number) self.now.depth state.old) result state.new }
    {
        if in_range(number) {
            Ok(Value::Number(number as i64))
        } else {
            Err(left())
        }
    }

    #[tactic(auto, using(crate::proofs::Ranges::too_wide), unfolding(crate::specs::Operators::number))]
    pub(crate) fn plus(
        &self,
        state: &mut State<'a>,
        a: i128,
        b: i128,
    ) -> Result<Value<'a>, Jump<'a>>
        ensures { IsOutcome (at (spec.number (a +ℤ b)) self.now.depth state.old) result state.new }
    {
        match a.checked_add(b) {
            Some(number) => self.number(state, number),
            None => Err(left()),
        }
    }

    #[tactic(auto, using(crate::proofs::Ranges::too_wide), unfolding(crate::specs::Operators::number))]
    pub(crate) fn minus(
        &self,
        state: &mut State<'a>,
        a: i128,
        b: i128,
    ) -> Result<Value<'a>, Jump<'a>>
        ensures { IsOutcome (at (spec.number (a -ℤ b)) self.now.depth state.old) result state.new }
    {
        match a.checked_sub(b) {
            Some(number) => self.number(state, number),
            None => Err(left()),
        }
    }

    #[tactic(auto, using(crate::proofs::Ranges::too_wide), unfolding(crate::specs::Operators::number))]
    pub(crate) fn times(
        &self,
        state: &mut State<'a>,
        a: i128,
        b: i128,
    ) -> Result<Value<'a>, Jump<'a>>
        ensures { IsOutcome (at (spec.number (a *ℤ b)) self.now.depth state.old) result state.new }
    {
        match a.checked_mul(b) {
            Some(number) => self.number(state, number),
            None => Err(left()),
        }
    }

    #[tactic(auto, unfolding(crate::specs::Operators::divided))]
    pub(crate) fn divided(
        &self,
        spot: Spot,
        state: &mut State<'a>,
        a: i64,
        b: i64,
    ) -> Result<Value<'a>, Jump<'a>>
        ensures { IsOutcome (at (spec.divided spot a b) self.now.depth state.old) result state.new }
    {
        if b == 0 {
            return Err(stuck(spot));
        }
        let (a, b) = (i128::from(a), i128::from(b));
        if a % b == 0 {
            self.number(state, a / b)
        } else {
            Err(stuck(spot))
        }
    }

    #[tactic(auto, unfolding(crate::specs::Operators::remainder))]
    pub(crate) fn remainder(
        &self,
        spot: Spot,
        state: &mut State<'a>,
        a: i64,
        b: i64,
    ) -> Result<Value<'a>, Jump<'a>>
        ensures { IsOutcome (at (spec.remainder spot a b) self.now.depth state.old) result state.new }
    {
        if b == 0 {
            return Err(stuck(spot));
        }
        self.number(state, i128::from(a) % i128::from(b))
    }

    #[tactic(auto, unfolding(crate::specs::Operators::numbers))]
    pub(crate) fn numbers(
        &self,
        spot: Spot,
        state: &mut State<'a>,
        operator: JsOperator,
        a: i64,
        b: i64,
    ) -> Result<Value<'a>, Jump<'a>>
        ensures { IsOutcome (at (spec.numbers spot operator a b) self.now.depth state.old) result state.new }
    {
        match operator {
            JsOperator::Plus => self.plus(state, i128::from(a), i128::from(b)),
            JsOperator::Minus => self.minus(state, i128::from(a), i128::from(b)),
            JsOperator::Times => self.times(state, i128::from(a), i128::from(b)),
            JsOperator::Divide => self.divided(spot, state, a, b),
            JsOperator::Remainder => self.remainder(spot, state, a, b),
            JsOperator::Equal => Ok(Value::Bool(a == b)),
            JsOperator::Less => Ok(Value::Bool(a.cmp(&b).is_lt())),
            JsOperator::Greater => Ok(Value::Bool(a.cmp(&b).is_gt())),
            JsOperator::LessEqual => Ok(Value::Bool(a.cmp(&b).is_le())),
            JsOperator::GreaterEqual => Ok(Value::Bool(a.cmp(&b).is_ge())),
        }
    }

    #[tactic(auto, unfolding(crate::specs::Operators::string))]
    pub(crate) fn joined(
        &self,
        state: &mut State<'a>,
        s: &SharedText<'a>,
        t: &SharedText<'a>,
    ) -> Result<Value<'a>, Jump<'a>>
        ensures { IsOutcome (at (spec.string (s.now ++ t.now)) self.now.depth state.old) result state.new }
    {
        if !fits(s, t) {
            return Err(left());
        }
        Ok(Value::Str(s.joined(self.arena, t)?))
    }

    #[tactic(auto, unfolding(crate::specs::Operators::strings))]
    pub(crate) fn strings(
        &self,
        spot: Spot,
        state: &mut State<'a>,
        operator: JsOperator,
        s: &SharedText<'a>,
        t: &SharedText<'a>,
    ) -> Result<Value<'a>, Jump<'a>>
        ensures { IsOutcome (at (spec.strings spot operator s.now t.now) self.now.depth state.old) result state.new }
    {
        match operator {
            JsOperator::Plus => self.joined(state, s, t),
            JsOperator::Less => Ok(Value::Bool(s.compare(t).is_lt())),
            JsOperator::Greater => Ok(Value::Bool(s.compare(t).is_gt())),
            JsOperator::LessEqual => Ok(Value::Bool(s.compare(t).is_le())),
            JsOperator::GreaterEqual => Ok(Value::Bool(s.compare(t).is_ge())),
            _ => Err(stuck(spot)),
        }
    }

    pub(crate) fn on_two(
        &self,
        spot: Spot,
        state: &mut State<'a>,
        operator: JsOperator,
        a: &Value<'a>,
        b: &Value<'a>,
    ) -> Result<Value<'a>, Jump<'a>>
        ensures { IsOutcome (at (spec.on_two spot operator a.now b.now) self.now.depth state.old) result state.new }
    {
        match (a, b) {
            (Value::Number(a), Value::Number(b)) => self.numbers(spot, state, operator, *a, *b),
            (Value::Str(s), Value::Str(t)) => self.strings(spot, state, operator, s, t),
            _ => Err(stuck(spot)),
        }
    }

    #[inline(never)]
    #[tactic(auto, unfolding(crate::specs::Operators::operated))]
    pub(crate) fn operated(
        &self,
        spot: Spot,
        state: &mut State<'a>,
        operator: JsOperator,
        a: &Value<'a>,
        b: &Value<'a>,
    ) -> Result<Value<'a>, Jump<'a>>
        ensures { IsOutcome (at (spec.operated spot operator a.now b.now) self.now.depth state.old) result state.new }
    {
        match operator {
            JsOperator::Equal => Ok(Value::Bool(a == b)),
            _ => self.on_two(spot, state, operator, a, b),
        }
    }
}
