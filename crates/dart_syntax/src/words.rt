//! The reserved words and the signs.
ghost use Rattle.std.specs.Prelude.{◌≡◌};
ghost use Rattle.dart_syntax.specs.Table as table;

/// A reserved word.
#[derive(Clone, Copy, Debug, PartialEq, Eq)]
pub enum Word {
    Assert,
    Break,
    Case,
    Catch,
    Class,
    Const,
    Continue,
    Default,
    Do,
    Else,
    Enum,
    Extends,
    False,
    Final,
    Finally,
    For,
    If,
    In,
    Is,
    New,
    Null,
    Rethrow,
    Return,
    Super,
    Switch,
    This,
    Throw,
    True,
    Try,
    Var,
    Void,
    While,
    With,
}

/// A sign.
#[derive(Clone, Copy, Debug, PartialEq, Eq)]
pub enum Sign {
    /// `{`
    OpenBrace,
    /// `}`
    CloseBrace,
    /// `(`
    OpenParen,
    /// `)`
    CloseParen,
    /// `[`
    OpenBracket,
    /// `]`
    CloseBracket,
    /// `;`
    Semicolon,
    /// `,`
    Comma,
    /// `.`
    Dot,
    /// `:`
    Colon,
    /// `?`
    Question,
    /// `@`
    At,
    /// `=`
    Assign,
    /// `=>`
    Arrow,
    /// `==`
    Equal,
    /// `!=`
    NotEqual,
    /// `<`
    Less,
    /// `>`
    Greater,
    /// `<=`
    LessEqual,
    /// `>=`
    GreaterEqual,
    /// `+`
    Plus,
    /// `-`
    Minus,
    /// `*`
    Times,
    /// `%`
    Modulo,
    /// `~/`
    Divide,
    /// `!`
    Not,
    /// `&&`
    And,
    /// `||`
    Or,
    /// `++`
    Increment,
    /// `--`
    Decrement,
    /// `+=`
    PlusAssign,
    /// `-=`
    MinusAssign,
    /// `*=`
    TimesAssign,
    /// `~/=`
    DivideAssign,
    /// `%=`
    ModuloAssign,
}

/// All reserved words.
pub const WORDS: [Word; 33] = [
    Word::Assert,
    Word::Break,
    Word::Case,
    Word::Catch,
    Word::Class,
    Word::Const,
    Word::Continue,
    Word::Default,
    Word::Do,
    Word::Else,
    Word::Enum,
    Word::Extends,
    Word::False,
    Word::Final,
    Word::Finally,
    Word::For,
    Word::If,
    Word::In,
    Word::Is,
    Word::New,
    Word::Null,
    Word::Rethrow,
    Word::Return,
    Word::Super,
    Word::Switch,
    Word::This,
    Word::Throw,
    Word::True,
    Word::Try,
    Word::Var,
    Word::Void,
    Word::While,
    Word::With,
];

/// All signs, the longer ones first.
pub const SIGNS: [Sign; 35] = [
    Sign::DivideAssign,
    Sign::Arrow,
    Sign::Equal,
    Sign::NotEqual,
    Sign::LessEqual,
    Sign::GreaterEqual,
    Sign::Divide,
    Sign::And,
    Sign::Or,
    Sign::Increment,
    Sign::Decrement,
    Sign::PlusAssign,
    Sign::MinusAssign,
    Sign::TimesAssign,
    Sign::ModuloAssign,
    Sign::OpenBrace,
    Sign::CloseBrace,
    Sign::OpenParen,
    Sign::CloseParen,
    Sign::OpenBracket,
    Sign::CloseBracket,
    Sign::Semicolon,
    Sign::Comma,
    Sign::Dot,
    Sign::Colon,
    Sign::Question,
    Sign::At,
    Sign::Assign,
    Sign::Less,
    Sign::Greater,
    Sign::Plus,
    Sign::Minus,
    Sign::Times,
    Sign::Modulo,
    Sign::Not,
];

impl Word {
    /// The bytes that spell the word.
    pub fn spelling(self) -> &'static [u8]
        ensures { result.now ≡ table.spelling_of_word self }
    {
        match self {
            Word::Assert => b"assert",
            Word::Break => b"break",
            Word::Case => b"case",
            Word::Catch => b"catch",
            Word::Class => b"class",
            Word::Const => b"const",
            Word::Continue => b"continue",
            Word::Default => b"default",
            Word::Do => b"do",
            Word::Else => b"else",
            Word::Enum => b"enum",
            Word::Extends => b"extends",
            Word::False => b"false",
            Word::Final => b"final",
            Word::Finally => b"finally",
            Word::For => b"for",
            Word::If => b"if",
            Word::In => b"in",
            Word::Is => b"is",
            Word::New => b"new",
            Word::Null => b"null",
            Word::Rethrow => b"rethrow",
            Word::Return => b"return",
            Word::Super => b"super",
            Word::Switch => b"switch",
            Word::This => b"this",
            Word::Throw => b"throw",
            Word::True => b"true",
            Word::Try => b"try",
            Word::Var => b"var",
            Word::Void => b"void",
            Word::While => b"while",
            Word::With => b"with",
        }
    }
}

impl Sign {
    /// The bytes that spell the sign.
    pub fn spelling(self) -> &'static [u8]
        ensures { result.now ≡ table.spelling_of_sign self }
    {
        match self {
            Sign::OpenBrace => b"{",
            Sign::CloseBrace => b"}",
            Sign::OpenParen => b"(",
            Sign::CloseParen => b")",
            Sign::OpenBracket => b"[",
            Sign::CloseBracket => b"]",
            Sign::Semicolon => b";",
            Sign::Comma => b",",
            Sign::Dot => b".",
            Sign::Colon => b":",
            Sign::Question => b"?",
            Sign::At => b"@",
            Sign::Assign => b"=",
            Sign::Arrow => b"=>",
            Sign::Equal => b"==",
            Sign::NotEqual => b"!=",
            Sign::Less => b"<",
            Sign::Greater => b">",
            Sign::LessEqual => b"<=",
            Sign::GreaterEqual => b">=",
            Sign::Plus => b"+",
            Sign::Minus => b"-",
            Sign::Times => b"*",
            Sign::Modulo => b"%",
            Sign::Divide => b"~/",
            Sign::Not => b"!",
            Sign::And => b"&&",
            Sign::Or => b"||",
            Sign::Increment => b"++",
            Sign::Decrement => b"--",
            Sign::PlusAssign => b"+=",
            Sign::MinusAssign => b"-=",
            Sign::TimesAssign => b"*=",
            Sign::DivideAssign => b"~/=",
            Sign::ModuloAssign => b"%=",
        }
    }
}
