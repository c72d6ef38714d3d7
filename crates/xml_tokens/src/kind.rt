/// Why a document is refused. Of several kinds at one token the first of this order counts.
#[derive(Clone, Copy, Debug, PartialEq, Eq, Hash)]
pub enum XmlKind {
    /// The first 262,144 bytes of a tag hold no end.
    TagTooLong,
    /// Bytes aren't well-formed UTF-8.
    NotUtf8,
    /// A character may not stand in XML (production 2).
    BadChar,
    /// A document type declaration, of which this profile has none.
    Doctype,
    /// The XML declaration isn't `1.0` and UTF-8, or stands where it may not.
    BadDeclaration,
    /// Markup isn't spelled as the standard has it, or `]]>` stands in a text.
    BadMarkup,
    /// A reference refers to nothing.
    BadReference,
    /// Text outside the root element.
    TextOutside,
    /// An element has more attributes than the limit, declarations of namespaces among them.
    TooManyAttributes,
    /// A name as written has more bytes than the limit.
    NameTooLong,
    /// An end tag isn't that of the innermost open element.
    Mismatched,
    /// A second element outside the root.
    SecondRoot,
    /// A declaration of a namespace that may not be (Namespaces in XML 1.0, section 3).
    BadNamespace,
    /// A prefix that isn't declared.
    UndeclaredPrefix,
    /// Two attributes of an element are equal, as written or as expanded.
    DuplicateAttribute,
    /// More elements inside one another than the limit.
    TooDeep,
    /// More distinct expanded names than the limit.
    TooManyNames,
    /// More nodes than the limit: the document, elements, attributes, texts.
    TooManyNodes,
    /// More bytes than the limit.
    TooLong,
    /// The input ends inside a token or an element.
    Truncated,
    /// The input ends before a root element.
    NoRoot,
    /// Memory ran out.
    Memory,
}
