//! What is wrong with an element by itself.
ghost use Rattle.std.specs.Prelude.{◌≡◌, ◌||◌, ◌++◌, chars, codes, is_none};
ghost use Rattle.std.specs.Str.{bytes_eq};
ghost use Rattle.schematron_meaning.specs.declared.attribute.Attribute.TheVariants.{QueryBinding};
ghost use Rattle.schematron_meaning.specs.Lookup.{attribute};
ghost use Rattle.schematron_meaning.specs.Showing as spec;
ghost use Rattle.schematron_meaning.specs.Showing.{first_in};
ghost use Rattle.schematron_entries.specs.Seen.{seen_entry};
ghost use Rattle.schematron_entries.specs.Firsts as firsts;

use crate::entry::Entry;
use inv_base::is_same_text;
use schematron_meaning::{Attribute, Fault, Role, RuleKind};

const OF_NAMESPACE: [Attribute; 2] = [Attribute::Prefix, Attribute::Uri];

const OF_VARIABLE: [Attribute; 2] = [Attribute::Name, Attribute::Value];

const OF_NAMED: [Attribute; 1] = [Attribute::Id];

const OF_ACTIVE: [Attribute; 1] = [Attribute::Pattern];

const OF_RULE: [Attribute; 1] = [Attribute::Context];

const OF_EXTENDS: [Attribute; 1] = [Attribute::Rule];

const OF_ASSERTION: [Attribute; 1] = [Attribute::Test];

const OF_VALUE: [Attribute; 1] = [Attribute::Select];

const OF_OTHERS: [Attribute; 0] = [];

/// A fault at an element.
pub(crate) fn fault(kind: RuleKind, attribute: Option<Attribute>, e: &Entry<'_>) -> Fault
    ensures { result ≡ spec.fault kind attribute (seen_entry e.now) }
{
    Fault {
        kind,
        node: e.node,
        attribute,
    }
}

/// The first of two, of which the former comes first.
pub(crate) fn first_or(first: Option<Fault>, second: Option<Fault>) -> Option<Fault>
    ensures { result ≡ firsts.first_or first second }
{
    match first {
        Some(fault) => Some(fault),
        None => second,
    }
}

fn not_schematron(e: &Entry<'_>) -> Option<Fault>
    ensures { result ≡ first_in (spec.not_schematron (seen_entry e.now)) }
{
    match e.role {
        Role::OtherRoot => Some(fault(RuleKind::NotSchematron, None, e)),
        _ => None,
    }
}

fn is_binding(text: &str) -> bool
    ensures { result ≡ (bytes_eq (chars text.now) (codes "xslt2") || bytes_eq (chars text.now) (codes "xpath2")) }
{
    is_same_text(text, "xslt2") | is_same_text(text, "xpath2")
}

fn is_known_binding(e: &Entry<'_>) -> bool
    ensures { result ≡ spec.is_known_binding (attribute QueryBinding (seen_entry e.now)) }
{
    match e.attribute(Attribute::QueryBinding) {
        Some(binding) => is_binding(binding),
        None => false,
    }
}

fn bad_binding(e: &Entry<'_>) -> Option<Fault>
    ensures { result ≡ first_in (spec.bad_binding (seen_entry e.now)) }
{
    match e.role {
        Role::Schema => {
            if is_known_binding(e) {
                None
            } else {
                Some(fault(RuleKind::BadBinding, Some(Attribute::QueryBinding), e))
            }
        }
        _ => None,
    }
}

fn bad_element(e: &Entry<'_>) -> Option<Fault>
    ensures { result ≡ first_in (spec.bad_element (seen_entry e.now)) }
{
    match e.role {
        Role::Misplaced => Some(fault(RuleKind::BadElement, None, e)),
        _ => None,
    }
}

/// The attributes that have to be there.
fn needed(role: Role) -> &'static [Attribute]
    ensures { result.now ≡ spec.needed role }
{
    match role {
        Role::Namespace => &OF_NAMESPACE,
        Role::Let | Role::Parameter => &OF_VARIABLE,
        Role::Phase | Role::AbstractPattern | Role::AbstractRule => &OF_NAMED,
        Role::Active => &OF_ACTIVE,
        Role::Rule => &OF_RULE,
        Role::Extends => &OF_EXTENDS,
        Role::Assert | Role::Report => &OF_ASSERTION,
        Role::ValueOf => &OF_VALUE,
        _ => &OF_OTHERS,
    }
}

/// Whether the attribute isn't there.
fn lacks(e: &Entry<'_>, name: Attribute) -> bool
    ensures { result ≡ is_none (attribute name (seen_entry e.now)) }
{
    e.attribute(name).is_none()
}

fn missing_attribute(e: &Entry<'_>) -> Option<Fault>
    ensures { result ≡ first_in (spec.missing_attribute (seen_entry e.now)) }
{
    let needed = needed(e.role);
    'needed: for name in needed {
        if lacks(e, *name) {
            return Some(fault(RuleKind::MissingAttribute, Some(*name), e));
        }
    }
    None
}

/// The first fault of an element by itself.
pub(crate) fn fault_by_itself(e: &Entry<'_>) -> Option<Fault>
    ensures { result ≡ first_in (spec.not_schematron (seen_entry e.now)
        ++ (spec.bad_binding (seen_entry e.now) ++ (spec.bad_element (seen_entry e.now) ++ spec.missing_attribute (seen_entry e.now)))) }
{
    let inner = first_or(bad_element(e), missing_attribute(e));
    first_or(not_schematron(e), first_or(bad_binding(e), inner))
}
