/// The greatest sizes of a document that is read.
#[derive(Clone, Copy, PartialEq, Eq)]
pub struct Limits {
    /// Bytes of the whole document.
    pub bytes: u64,
    /// Nodes: the document, elements, attributes and texts.
    pub nodes: u32,
    /// Elements inside one another, of which the root is the first.
    pub depth: u32,
    /// Attributes of an element, declarations of namespaces among them.
    pub attributes: u32,
    /// Bytes of a name as written, its prefix and colon among them.
    pub name: u32,
    /// Distinct expanded names of elements and attributes.
    pub names: u32,
}

/// How large a document may be that the program reads, and so one that it writes.
pub const DOCUMENT_LIMITS: Limits = Limits {
    bytes: 67_108_864,
    nodes: 4_000_000,
    depth: 100,
    attributes: 64,
    name: 200,
    names: 10_000,
};

/// How large a rule file may be.
pub const RULE_LIMITS: Limits = Limits {
    bytes: 4_194_304,
    ..DOCUMENT_LIMITS
};
