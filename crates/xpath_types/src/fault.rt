/// Why an expression is refused. At one token the first in this order counts.
#[derive(Clone, Copy, Debug)]
pub enum TypeKind {
    /// A prefix that is bound to no namespace.
    UndeclaredPrefix,
    /// A variable that is bound neither around the part nor in the scope.
    UndeclaredVariable,
    /// A name that is no function's.
    UnknownFunction,
    /// A name behind `as` that is no type's.
    UnknownType,
    /// A function with more or fewer arguments than it takes.
    WrongArity,
    /// A pattern of `matches` that isn't one string literal.
    NotLiteral,
    /// A literal that is no pattern.
    BadPattern,
    /// A pattern of more than 2,000 characters, repeats counted out.
    PatternTooLarge,
    /// An operand whose every item is of a kind that its operator refuses.
    SureTypeError,
}

/// Why an expression isn't typed.
#[derive(Clone, Copy)]
pub enum TypeFault {
    /// The first refusal, with the number of the token that it stands at, from 0.
    Refused { kind: TypeKind, token: u32 },
    /// Memory ran out.
    Memory,
}
