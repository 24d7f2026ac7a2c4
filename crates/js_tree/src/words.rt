//! The member words and the operators of the grammar.
ghost use Rattle.std.specs.Prelude.{◌≡◌};
ghost use Rattle.js_tree.specs.Words.{member_text, operator_text};

/// What may stand behind the `.` of a member.
#[derive(Clone, Copy, Debug, PartialEq, Eq)]
pub enum JsMember {
    Length,
    Size,
    Push,
    Pop,
    CharCodeAt,
    Substring,
    Get,
    Set,
    Has,
    Delete,
    Keys,
    Print,
    Load,
}

/// What may stand between two operands.
#[derive(Clone, Copy, Debug, PartialEq, Eq)]
pub enum JsOperator {
    /// `+`
    Plus,
    /// `-`
    Minus,
    /// `*`
    Times,
    /// `/`
    Divide,
    /// `%`
    Remainder,
    /// `===`
    Equal,
    /// `<`
    Less,
    /// `>`
    Greater,
    /// `<=`
    LessEqual,
    /// `>=`
    GreaterEqual,
}

impl JsMember {
    /// The bytes that spell the word.
    pub fn text(self) -> &'static [u8]
        ensures { result.now ≡ member_text self }
    {
        match self {
            JsMember::Length => b"length",
            JsMember::Size => b"size",
            JsMember::Push => b"push",
            JsMember::Pop => b"pop",
            JsMember::CharCodeAt => b"charCodeAt",
            JsMember::Substring => b"substring",
            JsMember::Get => b"get",
            JsMember::Set => b"set",
            JsMember::Has => b"has",
            JsMember::Delete => b"delete",
            JsMember::Keys => b"keys",
            JsMember::Print => b"print",
            JsMember::Load => b"load",
        }
    }
}

impl JsOperator {
    /// The bytes that spell the operator.
    pub fn text(self) -> &'static [u8]
        ensures { result.now ≡ operator_text self }
    {
        match self {
            JsOperator::Plus => b"+",
            JsOperator::Minus => b"-",
            JsOperator::Times => b"*",
            JsOperator::Divide => b"/",
            JsOperator::Remainder => b"%",
            JsOperator::Equal => b"===",
            JsOperator::Less => b"<",
            JsOperator::Greater => b">",
            JsOperator::LessEqual => b"<=",
            JsOperator::GreaterEqual => b">=",
        }
    }
}
