// How the tables of layouts are written. A term is its number, `30`, or `30-1` of a part; words stand before it, and behind `+` of which
// codes a meaning follows.
macro_rules! part {
    ($number:literal) => {
        part!("", $number)
    };
    ($number:literal - $part:literal) => {
        (
            "",
            Term {
                number: $number,
                part: $part,
            },
            Meanings::None,
        )
    };
    ($number:literal + $meanings:ident) => {
        (
            "",
            Term {
                number: $number,
                part: 0,
            },
            Meanings::$meanings,
        )
    };
    ($words:literal, $number:literal) => {
        (
            $words,
            Term {
                number: $number,
                part: 0,
            },
            Meanings::None,
        )
    };
}

// A row with its label, and its parts, each in parentheses.
macro_rules! row {
    ($label:literal: $(($($part:tt)*))+) => {
        (None, Form::Row, $label, &[$(part!($($part)*)),+])
    };
}

// A paragraph with its class.
macro_rules! paragraph {
    ($class:literal: $(($($part:tt)*))+) => {
        (None, Form::Paragraph, $class, &[$(part!($($part)*)),+])
    };
}

// A row in each occurrence of a group.
macro_rules! rows_in {
    ($group:ident, $label:literal: $(($($part:tt)*))+) => {
        (Some(Group::$group), Form::Row, $label, &[$(part!($($part)*)),+])
    };
}

// A row in each occurrence of a group, labelled by the value of a term.
macro_rules! rows_of {
    ($group:ident, $number:literal: $(($($part:tt)*))+) => {
        (
            Some(Group::$group),
            Form::RowOf(Term {
                number: $number,
                part: 0,
            }),
            "",
            &[$(part!($($part)*)),+],
        )
    };
}

// A paragraph in each occurrence of a group.
macro_rules! paragraphs_in {
    ($group:ident, $class:literal: $(($($part:tt)*))+) => {
        (Some(Group::$group), Form::Paragraph, $class, &[$(part!($($part)*)),+])
    };
}

// The rows of the terms that a user's table adds.
macro_rules! added {
    () => {
        (None, Form::Added, "", &[])
    };
}

pub(crate) use added;
pub(crate) use paragraph;
pub(crate) use paragraphs_in;
pub(crate) use part;
pub(crate) use row;
pub(crate) use rows_in;
pub(crate) use rows_of;
