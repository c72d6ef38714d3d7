/// What the names of some elements have to differ among.
#[derive(Clone, Copy, PartialEq, Eq, Hash)]
pub enum Space {
    /// All patterns, by their identifiers.
    Patterns,
    /// All rules that have an identifier.
    Rules,
    /// All phases.
    Phases,
    /// The lets or parameters that are written in one element, by their names.
    Variables,
}
