//! Of what functions with one argument are.

/// What a function with one argument is of.
#[derive(Clone, Copy)]
pub(crate) enum Domain {
    Items,
    Texts,
    Numbers,
}
