ghost use Rattle.std.specs.Prelude.{◌≡◌, ◌<◌, ◌^◌};
ghost use Rattle.xpath_tokens.specs.declared.token.SyntaxFault.TheVariants.{Memory};

use inv_base::Txt;
use std::alloc::{AllocError, AllocFailed};
use std::marker::Model;

/// A sign or a word between operands, before one, or behind one. Spellings of one meaning stay apart.
#[derive(Clone, Copy, Debug)]
pub enum Operator {
    /// `/`
    Slash,
    /// `//`
    DoubleSlash,
    /// `|`
    Bar,
    Plus,
    Minus,
    /// `*` between operands
    Times,
    /// `=`
    Equal,
    /// `!=`
    NotEqual,
    /// `<`
    Less,
    /// `<=`
    LessOrEqual,
    /// `>`
    Greater,
    /// `>=`
    GreaterOrEqual,
    And,
    Or,
    Div,
    Idiv,
    Mod,
    Eq,
    Ne,
    Lt,
    Le,
    Gt,
    Ge,
    To,
    Union,
    Intersect,
    Except,
    In,
    Return,
    Satisfies,
    Then,
    Else,
    Cast,
    Castable,
    As,
}

/// A word that begins an expression: `if` before `(`, the others before `$`.
#[derive(Clone, Copy, Debug)]
pub enum Keyword {
    If,
    For,
    Some,
    Every,
}

/// A name token.
#[derive(Debug, Drop)]
pub enum Name {
    /// `a`
    Plain(Txt),
    /// `a:b`
    Prefixed(Txt, Txt),
    /// `a:*`
    AnyLocal(Txt),
    /// `*:b`
    AnyPrefix(Txt),
}

/// A number below 10^18, exactly. Both of its halves are below 10^18.
#[derive(Clone, Copy, Debug)]
pub struct Number {
    whole: u64,
    fraction: u64,
}

impl Model for Number {
    ghost use Rattle.std.specs.Prelude.{◌<◌, ◌^◌};
    ghost use Rattle.xpath_tokens.specs.Numbers.{Amount};

    ghost Value = { Amount };

    ghost view = { λ number. record { whole = number.whole; fraction = number.fraction } };

    ghost inverse = { λ amount. record { whole = amount.whole; fraction = amount.fraction } };

    ghost invariant = { λ number. (number.whole < 10 ^ 18) × (number.fraction < 10 ^ 18) };
}

impl Number {
    /// The number with these halves.
    pub fn new(whole: u64, fraction: u64) -> Number
        requires whole { whole < 10 ^ 18 }
        requires fraction { fraction < 10 ^ 18 }
        ensures { result ≡ record { whole = whole; fraction = fraction } }
    {
        Number { whole, fraction }
    }

    /// What stands before the point.
    pub fn whole(self) -> u64
        ensures exact { result ≡ self.whole }
        ensures within { result < 10 ^ 18 }
    {
        self.whole
    }

    /// How many times 10^-18 there is beside the whole.
    pub fn fraction(self) -> u64
        ensures exact { result ≡ self.fraction }
        ensures within { result < 10 ^ 18 }
    {
        self.fraction
    }
}

/// A token of the subset of XPath 2.0. What the grammar can tell apart is apart here.
#[derive(Debug, Drop)]
pub enum Token {
    LeftParenthesis,
    RightParenthesis,
    LeftBracket,
    RightBracket,
    Comma,
    /// `@`
    At,
    /// `::`
    DoubleColon,
    Dollar,
    /// `.`
    Dot,
    /// `..`
    DoubleDot,
    /// `?`
    Question,
    /// `*` where an operand stands
    Star,
    Operator(Operator),
    Keyword(Keyword),
    Name(Name),
    /// What a string stands for: without its quotes, and a doubled one inside once.
    Literal(Txt),
    Number(Number),
}

/// What may stand behind a token, as far as the reading of a word depends on it.
#[derive(Clone, Copy)]
pub enum Place {
    /// An operand: at the beginning, behind `@ :: ( [ ,` and behind operators.
    Operand,
    /// A name alone: behind `$` and `as`.
    Name,
    /// The operator word `as`, or an operand: behind `cast` and `castable`.
    As,
    /// An operator.
    Operator,
}

/// Why a text is no expression of the subset. The first in this order counts.
#[derive(Clone, Copy, Debug)]
pub enum SyntaxFault {
    /// More than 65,536 bytes.
    TooLong,
    /// At this character, counted from 0, no token begins.
    Lexical(u32),
    /// A number with more than 18 digits before the point, without leading zeros, or behind it.
    NumberTooWide,
    /// This token, counted from 0, belongs to a part of XPath that the subset lacks.
    Unsupported(u32),
    /// No expression is spelled so.
    Syntax,
    /// The expression has more than 256 levels.
    TooDeep,
    /// Memory ran out.
    Memory,
}

impl From<AllocError> for SyntaxFault {
    ghost from_gives = { λ _ e. e ≡ Memory };

    fn from(_e: AllocError) -> SyntaxFault {
        SyntaxFault::Memory
    }
}

impl<T: Drop> From<AllocFailed<T>> for SyntaxFault {
    ghost from_gives = { λ _ e. e ≡ Memory };

    fn from(_e: AllocFailed<T>) -> SyntaxFault {
        SyntaxFault::Memory
    }
}
