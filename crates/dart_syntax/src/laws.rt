//! What holds of the tokens of a file and of the first rule that it breaks. Each function does nothing: its contract is
//! the law.
ghost use Rattle.dart_syntax.specs.TokenLaws.{TokensAreOne, FirstBrokenIsOne, TokensBreakNone, TokensOrBroken, TokensAscend};

/// A file has at most one list of tokens.
pub fn tokens_are_one()
    ensures { TokensAreOne }
{}

/// At most one rule is the first broken one, at one place.
pub fn first_broken_is_one()
    ensures { FirstBrokenIsOne }
{}

/// A file that has tokens breaks no rule on tokens.
pub fn tokens_break_none()
    ensures { TokensBreakNone }
{}

/// A file has tokens, or breaks a rule on tokens.
pub fn tokens_or_broken()
    ensures { TokensOrBroken }
{}

/// Tokens stand one behind another within the file.
pub fn tokens_ascend()
    ensures { TokensAscend }
{}
