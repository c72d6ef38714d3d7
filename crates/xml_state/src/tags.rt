//! The tests by which a start tag is admitted.
ghost use Rattle.std.specs.Prelude.{◌≡◌, ◌==◌, ◌&&◌, not, length, if◌then◌else◌, map, chars, bytes_eq};
ghost use Rattle.std.specs.List.{list_any};
ghost use Rattle.xml_tokens.specs.Markup.{Written};
ghost use Rattle.xml_tokens.specs.Seen.{seen_attribute, seen_tag};
ghost use Rattle.xml_state.specs.Admission as spec;
ghost use Rattle.xml_state.specs.Namespaces as namespaces;
ghost use Rattle.xml_state.specs.StartTags as tags;

use crate::limits::Limits;
use crate::registry::Registry;
use crate::scopes::XML_URI;
use crate::written::{declared_prefix, is_plain, says_nothing, text_of};
use inv_base::is_same_text;
use xml_tokens::{Attribute, StartTag};

const XMLNS_URI: &str = "http://www.w3.org/2000/xmlns/";

// Whether the name takes more bytes than the limit.
pub(crate) fn is_long(limits: &Limits, name: &str) -> bool
    ensures { result ≡ spec.is_long_name limits.now name.now }
{
    name.len() > limits.name as usize
}

// Whether some name of the tag does.
pub(crate) fn has_long_name(limits: &Limits, tag: &StartTag<'_>) -> bool
    ensures { result ≡ spec.has_long_name limits.now (seen_tag tag.now) }
{
    is_long(limits, tag.name) || has_long_attribute(limits, &tag.attributes)
}

fn has_long_attribute(limits: &Limits, attributes: &[Attribute<'_>]) -> bool
    ensures { result ≡ list_any (λ (attribute : Written). spec.is_long_name limits.now attribute.name) (map seen_attribute attributes.now) }
{
    for attribute in attributes {
        if is_long(limits, attribute.name) {
            return true;
        }
    }
    false
}

fn is_xml_uri(uri: &str) -> bool
    ensures { result ≡ bytes_eq (chars uri.now) namespaces.xml_uri }
{
    is_same_text(uri, XML_URI)
}

fn is_xmlns_uri(uri: &str) -> bool
    ensures { result ≡ bytes_eq (chars uri.now) namespaces.xmlns_uri }
{
    is_same_text(uri, XMLNS_URI)
}

// Whether `xml` would stand for another name, or another prefix for its name.
fn mistakes_xml(prefix: &str, uri: &str) -> bool
    ensures { result ≡ (if bytes_eq prefix.now namespaces.xml then not (bytes_eq (chars uri.now) namespaces.xml_uri) else bytes_eq
        (chars uri.now) namespaces.xml_uri) }
{
    if prefix == "xml" {
        !is_xml_uri(uri)
    } else {
        is_xml_uri(uri)
    }
}

// Whether a prefix would stand for no name.
fn unbinds(prefix: &str, uri: &str) -> bool
    ensures { result ≡ (not (length prefix.now == 0) && length (chars uri.now) == 0) }
{
    !prefix.is_empty() && says_nothing(uri)
}

// Whether this binding may not be declared (Namespaces in XML 1.0, section 3).
fn is_bad_binding(prefix: &str, uri: &str) -> bool
    ensures { result ≡ namespaces.is_bad_binding (record { prefix = prefix.now; uri = chars uri.now }) }
{
    prefix == "xmlns" || mistakes_xml(prefix, uri) || is_xmlns_uri(uri) || unbinds(prefix, uri)
}

fn declares_badly(attribute: &Attribute<'_>) -> bool
    ensures { result ≡ tags.declares_badly (seen_attribute attribute.now) }
{
    match declared_prefix(attribute.name) {
        Some(prefix) => is_bad_binding(prefix, text_of(&attribute.value)),
        None => false,
    }
}

// Whether some declaration may not be.
pub(crate) fn has_bad_namespace(attributes: &[Attribute<'_>]) -> bool
    ensures { result ≡ list_any namespaces.is_bad_binding (namespaces.declared_bindings (map seen_attribute attributes.now)) }
{
    for attribute in attributes {
        if declares_badly(attribute) {
            return true;
        }
    }
    false
}

fn has_undeclared_attribute(scopes: &Registry, attributes: &[Attribute<'_>]) -> bool
    ensures { result ≡ list_any (λ (attribute : Written). namespaces.is_undeclared scopes.now.bound attribute.name)
        (namespaces.undeclaring (map seen_attribute attributes.now)) }
{
    for attribute in attributes {
        if is_plain(attribute.name) && scopes.is_undeclared_attribute(attribute.name) {
            return true;
        }
    }
    false
}

// Whether some prefix of the tag isn't bound.
pub(crate) fn has_undeclared_prefix(scopes: &Registry, tag: &StartTag<'_>) -> bool
    ensures { result ≡ spec.has_undeclared_prefix scopes.now.bound (seen_tag tag.now) }
{
    scopes.is_undeclared_element(tag.name) || has_undeclared_attribute(scopes, &tag.attributes)
}
