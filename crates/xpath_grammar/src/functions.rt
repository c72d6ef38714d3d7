ghost use Rattle.std.specs.Prelude.{◌≡◌};
ghost use Rattle.xpath_grammar.specs.Functions as spec;

use crate::words::Worded;

/// A function that expressions may call (XQuery 1.0 and XPath 2.0 Functions and Operators, in a subset).
#[derive(Clone, Copy, Debug)]
pub enum Function {
    True,
    False,
    Position,
    Last,
    Not,
    Boolean,
    Exists,
    Empty,
    Count,
    Reverse,
    Data,
    String,
    Concat,
    StringJoin,
    Substring,
    StringLength,
    NormalizeSpace,
    UpperCase,
    LowerCase,
    Translate,
    Contains,
    StartsWith,
    EndsWith,
    Matches,
    SubstringBefore,
    SubstringAfter,
    Abs,
    Floor,
    Ceiling,
    Round,
    Sum,
    Min,
    Max,
    DistinctValues,
    LocalName,
    NamespaceUri,
    /// `xs:string`
    XsString,
    XsDecimal,
    XsInteger,
    XsDate,
    XsBoolean,
}

impl Worded for Function {
    ghost spelling = { spec.function_word };

    ghost is_ascii = { spec.chars-function_word };

    /// The local part of its name.
    fn word(self) -> &'static str {
        match self {
            Function::True => "true",
            Function::False => "false",
            Function::Position => "position",
            Function::Last => "last",
            Function::Not => "not",
            Function::Boolean => "boolean",
            Function::Exists => "exists",
            Function::Empty => "empty",
            Function::Count => "count",
            Function::Reverse => "reverse",
            Function::Data => "data",
            Function::String | Function::XsString => "string",
            Function::Concat => "concat",
            Function::StringJoin => "string-join",
            Function::Substring => "substring",
            Function::StringLength => "string-length",
            Function::NormalizeSpace => "normalize-space",
            Function::UpperCase => "upper-case",
            Function::LowerCase => "lower-case",
            Function::Translate => "translate",
            Function::Contains => "contains",
            Function::StartsWith => "starts-with",
            Function::EndsWith => "ends-with",
            Function::Matches => "matches",
            Function::SubstringBefore => "substring-before",
            Function::SubstringAfter => "substring-after",
            Function::Abs => "abs",
            Function::Floor => "floor",
            Function::Ceiling => "ceiling",
            Function::Round => "round",
            Function::Sum => "sum",
            Function::Min => "min",
            Function::Max => "max",
            Function::DistinctValues => "distinct-values",
            Function::LocalName => "local-name",
            Function::NamespaceUri => "namespace-uri",
            Function::XsDecimal => "decimal",
            Function::XsInteger => "integer",
            Function::XsDate => "date",
            Function::XsBoolean => "boolean",
        }
    }
}

/// The functions in the namespace of functions.
pub const FUNCTIONS: [Function; 36] = [
    Function::True,
    Function::False,
    Function::Position,
    Function::Last,
    Function::Not,
    Function::Boolean,
    Function::Exists,
    Function::Empty,
    Function::Count,
    Function::Reverse,
    Function::Data,
    Function::String,
    Function::Concat,
    Function::StringJoin,
    Function::Substring,
    Function::StringLength,
    Function::NormalizeSpace,
    Function::UpperCase,
    Function::LowerCase,
    Function::Translate,
    Function::Contains,
    Function::StartsWith,
    Function::EndsWith,
    Function::Matches,
    Function::SubstringBefore,
    Function::SubstringAfter,
    Function::Abs,
    Function::Floor,
    Function::Ceiling,
    Function::Round,
    Function::Sum,
    Function::Min,
    Function::Max,
    Function::DistinctValues,
    Function::LocalName,
    Function::NamespaceUri,
];

/// The functions of the types, in the namespace of types.
pub const TYPES: [Function; 5] = [
    Function::XsString,
    Function::XsDecimal,
    Function::XsInteger,
    Function::XsDate,
    Function::XsBoolean,
];

/// How few arguments a function takes.
fn fewest(function: Function) -> usize
    ensures { result ≡ spec.fewest function }
{
    match function {
        Function::True
        | Function::False
        | Function::Position
        | Function::Last
        | Function::String
        | Function::StringLength
        | Function::NormalizeSpace
        | Function::LocalName
        | Function::NamespaceUri => 0,
        Function::Concat
        | Function::StringJoin
        | Function::Substring
        | Function::Contains
        | Function::StartsWith
        | Function::EndsWith
        | Function::Matches
        | Function::SubstringBefore
        | Function::SubstringAfter => 2,
        Function::Translate => 3,
        _ => 1,
    }
}

/// How many arguments a function takes at most, where there is a most.
fn most(function: Function) -> Option<usize>
    ensures { result ≡ spec.most function }
{
    match function {
        Function::Concat => None,
        Function::True | Function::False | Function::Position | Function::Last => Some(0),
        Function::StringJoin
        | Function::Contains
        | Function::StartsWith
        | Function::EndsWith
        | Function::Matches
        | Function::SubstringBefore
        | Function::SubstringAfter => Some(2),
        Function::Substring | Function::Translate => Some(3),
        _ => Some(1),
    }
}

/// Whether a function takes so many arguments.
pub fn takes(function: Function, count: usize) -> bool
    ensures { result ≡ spec.takes function count }
{
    if count < fewest(function) {
        return false;
    }
    match most(function) {
        Some(limit) => count <= limit,
        None => true,
    }
}
