//! What bytes begin with, and where a string or the end of a tag first stands in them.
ghost use Rattle.std.specs.Prelude.{◌≡◌, ◌≤◌, ◌<◌, ◌+◌, length, take, None, IfSome, ◌==◌, true, false};
ghost use Rattle.xml_tokens.specs.Searches as spec;
ghost use Rattle.xml_tokens.specs.Searching.{quote_after};
ghost use Rattle.xml_tokens.specs.Told.{Ends};

/// How many bytes behind the `<` of a tag may be searched for its end.
const ROOM: usize = 262_143;

/// Where a tag ends: the first `>` outside quotes stands behind so many bytes, or none stands within the room, or none
/// stands in the bytes, behind which this quote is open.
#[derive(Clone, Copy)]
pub enum TagEnd {
    Behind(usize),
    NoneWithin,
    NoneYet(Option<u8>),
}

/// Whether the bytes begin with the string.
pub fn begins_with(string: &[u8], bytes: &[u8]) -> bool
    ensures exact { result ≡ spec.begins_with string.now bytes.now }
    ensures bound { result ≡ true → length string.now ≤ length bytes.now }
{
    bytes.starts_with(string)
}

/// Whether the bytes end inside the string that they begin to spell.
pub fn ends_inside(string: &[u8], bytes: &[u8]) -> bool
    ensures { result ≡ spec.ends_inside string.now bytes.now }
{
    bytes.len() < string.len() && string.starts_with(bytes)
}

/// How much of the string the bytes begin with.
pub fn shared_front(string: &[u8], bytes: &[u8]) -> usize
    ensures exact { result ≡ spec.shared_front string.now bytes.now }
    ensures within { result ≤ length string.now }
{
    let end = string.len().min(bytes.len());
    'places: for i in 0..end {
        if bytes[i] != string[i] {
            return i;
        }
    }
    end
}

/// How much stands before the first place at which the string stands, given that so many bytes at the front were
/// searched in vain.
pub fn place_after(string: &[u8], bytes: &[u8], searched: usize) -> Option<usize>
    requires some { 0 < length string.now }
    requires within { searched ≤ length bytes.now }
    requires in_vain { spec.place_of string.now (take searched bytes.now) ≡ None }
    ensures exact { result ≡ spec.place_of string.now bytes.now }
    ensures within { IfSome result (λ n. n + length string.now ≤ length bytes.now) }
{
    let mut place = (searched + 1).saturating_sub(string.len());
    'places: while place < bytes.len() {
        let (_, rest) = bytes.split_at(place);
        if begins_with(string, rest) {
            return Some(place);
        }
        place += 1;
    }
    None
}

/// Whether the byte is a quote: `"` or `'`.
pub fn is_quote(byte: u8) -> bool
    ensures { result ≡ spec.is_quote byte }
{
    byte == b'"' || byte == b'\''
}

/// Whether the byte ends a tag in which this quote is open.
fn ends_tag(quote: Option<u8>, byte: u8) -> bool
    ensures { result ≡ spec.ends_tag quote byte }
{
    match quote {
        Some(_) => false,
        None => byte == b'>',
    }
}

/// The quote that is open behind the byte.
fn quote_behind(quote: Option<u8>, byte: u8) -> Option<u8>
    ensures { result ≡ spec.quote_behind quote byte }
{
    match quote {
        Some(open) if byte == open => None,
        Some(open) => Some(open),
        None if is_quote(byte) => Some(byte),
        None => None,
    }
}

/// Whether the byte changes nothing: it is not the quote that is open, or where none is, neither `>` nor a quote.
fn is_passed(quote: Option<u8>, byte: u8) -> bool
    ensures { result ≡ true → (spec.ends_tag quote byte ≡ false) × (quote ≡ spec.quote_behind quote byte) }
{
    match quote {
        Some(open) => byte != open,
        None => byte > b'>' || (byte < b'>' && !is_quote(byte)),
    }
}

/// Where the tag ends, by the bytes behind its `<`, given that so many of them were searched in vain, behind which this
/// quote is open.
pub fn tag_end(bytes: &[u8], searched: usize, open_quote: Option<u8>) -> TagEnd
    requires within { searched ≤ length bytes.now }
    requires in_vain { spec.tag_end (take searched bytes.now) None 262143 ≡ spec.none_yet }
    requires quote { open_quote ≡ quote_after None (take searched bytes.now) }
    ensures { Ends bytes.now 262143 result }
{
    let end = bytes.len().min(ROOM);
    let mut quote = open_quote;
    let mut place = searched;
    'places: while place < end {
        let byte = bytes[place];
        if !is_passed(quote, byte) {
            if ends_tag(quote, byte) {
                return TagEnd::Behind(place);
            }
            quote = quote_behind(quote, byte);
        }
        place += 1;
    }
    if end < ROOM {
        TagEnd::NoneYet(quote)
    } else {
        TagEnd::NoneWithin
    }
}
