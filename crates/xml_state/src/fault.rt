use inv_base::Place;
use xml_tokens::XmlKind;

/// Why and where a document is refused. The place of `Memory` is 0, that of `Truncated` and `NoRoot` the end of the
/// input, that of `TooLong` the limit; else it is the first byte of the faulty token.
#[derive(Clone, Copy, Debug, PartialEq, Eq, Hash)]
pub struct XmlFault {
    /// Why.
    pub kind: XmlKind,
    /// Where, the byte order mark among the bytes before.
    pub place: Place,
}

impl XmlFault {
    /// Memory ran out: the one fault that no document has of itself.
    pub const WANT_OF_MEMORY: XmlFault = XmlFault {
        kind: XmlKind::Memory,
        place: Place { byte: 0 },
    };
}
