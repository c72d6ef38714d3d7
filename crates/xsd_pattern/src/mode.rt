/// Where in a token a text stands. The members of a class that is open are kept beside it.
#[derive(Clone, Copy)]
pub enum Mode {
    /// Between two tokens.
    Between,
    /// Behind a backslash.
    Escaped,
    /// Behind `[`.
    Bracket,
    /// In brackets, where a member begins. The flag here and below: the class is the other characters.
    Inside(bool),
    /// Behind a character, which may be a member or begin a range.
    Got(bool, char),
    /// Behind that and a dash.
    Dash(bool, char),
    /// In brackets behind a backslash.
    Escape(bool),
    /// Behind a character, a dash and a backslash.
    DashEscape(bool, char),
    /// Behind `{`: how many digits, and their value.
    Least(u8, u16),
    /// Behind the comma in braces: the number before it, how many digits, and their value.
    Most(u16, u8, u16),
}
