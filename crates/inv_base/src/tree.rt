/// What a node of a document is.
#[derive(Clone, Copy, Debug, PartialEq, Eq, Hash)]
pub enum Kind {
    /// The document itself, around its root element.
    Document,
    Element,
    Attribute,
    Text,
}
