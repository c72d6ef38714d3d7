//! Names and attributes as they are written.
ghost use Rattle.std.specs.Prelude.{◌≡◌, ◌==◌, length, chars, None, false, option_map, is_none};
ghost use Rattle.xml_tokens.specs.Seen.{seen_value};
ghost use Rattle.xml_tokens.specs.WrittenNames.{prefix_of, local_of};
ghost use Rattle.xml_state.specs.Namespaces as spec;

use xml_tokens::Value;

// What stands before the colon of a name, empty where it has none, and its local part.
pub(crate) fn parts_of(name: &str) -> (&str, &str)
    ensures prefix { result.0.now ≡ prefix_of name.now }
    ensures local { result.1.now ≡ local_of name.now }
{
    match name.split_once(':') {
        Some((prefix, local)) => (prefix, local),
        None => ("", name),
    }
}

// Whether the name may be that of a declaration, by its first byte. Most names aren't, and need no further look.
fn may_declare(name: &str) -> bool
    ensures { result ≡ false → spec.declared_prefix name.now ≡ None }
{
    match name.as_bytes() {
        [first, ..] => *first == b'x',
        [] => false,
    }
}

// The prefix that an attribute of this name declares, empty for the default namespace, where it is a declaration.
pub(crate) fn declared_prefix(name: &str) -> Option<&str>
    ensures { option_map (λ prefix. prefix.now) result ≡ spec.declared_prefix name.now }
{
    if !may_declare(name) {
        return None;
    }
    if name == "xmlns" {
        return Some("");
    }
    let (prefix, local) = parts_of(name);
    if prefix == "xmlns" { Some(local) } else { None }
}

// Whether an attribute of this name is no declaration.
pub(crate) fn is_plain(name: &str) -> bool
    ensures { result ≡ is_none (spec.declared_prefix name.now) }
{
    declared_prefix(name).is_none()
}

// What a value says.
pub(crate) fn text_of<'a>(value: &'a Value<'_>) -> &'a str
    ensures { chars result.now ≡ seen_value value.now }
{
    match value {
        Value::Lent(text) => text,
        Value::Own(text) => text.as_str(),
    }
}

// Whether a text has no characters.
pub(crate) fn says_nothing(text: &str) -> bool
    ensures { result ≡ (length (chars text.now) == 0) }
{
    text.is_empty()
}
