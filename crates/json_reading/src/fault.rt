/// Why a text is refused.
#[derive(Clone, Copy, Debug, PartialEq, Eq)]
pub enum JsonKind {
    /// The bytes before can begin a JSON text, and with this one they can't.
    NotJson,
    /// In a string, bytes that begin no character of UTF-8.
    NotUtf8,
    /// One object or array inside others more than the limit.
    TooDeep,
    /// The text ends before its value does.
    Truncated,
    /// More bytes than the limit.
    TooLong,
    /// Memory ran out.
    Memory,
}

/// Why a text is refused, and where.
#[derive(Clone, Copy, Debug, PartialEq, Eq)]
pub struct JsonFault {
    pub kind: JsonKind,
    /// How many bytes stand before the place, a byte order mark among them.
    pub at: u64,
}
