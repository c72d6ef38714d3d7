//! Roles of elements (ISO/IEC 19757-3, section 5.4).
ghost use Rattle.std.specs.Prelude.{◌≡◌, chars, map, codes, is_some};
ghost use Rattle.std.specs.Str.{bytes_eq};
ghost use Rattle.schematron_meaning.specs.declared.attribute.Attribute.TheVariants.{Abstract};
ghost use Rattle.schematron_meaning.specs.Words.{attribute_word, schematron};
ghost use Rattle.schematron_meaning.specs.Entries as spec;
ghost use Rattle.schematron_entries.specs.Seen.{seen_given};

use crate::entry::{Given, attribute_of};
use inv_base::is_same_text;
use schematron_meaning::{Attribute, Role, Tag};
use xpath_grammar::words::Worded;

const SCHEMATRON: &str = "http://purl.oclc.org/dsdl/schematron";

const IN_SCHEMA: [(Tag, Role); 8] = [
    (Tag::Title, Role::Passed),
    (Tag::Paragraph, Role::Passed),
    (Tag::Namespace, Role::Namespace),
    (Tag::Let, Role::Let),
    (Tag::Phase, Role::Phase),
    (Tag::Pattern, Role::Pattern),
    (Tag::Diagnostics, Role::Passed),
    (Tag::Properties, Role::Passed),
];

const IN_PHASE: [(Tag, Role); 3] = [
    (Tag::Paragraph, Role::Passed),
    (Tag::Let, Role::Let),
    (Tag::Active, Role::Active),
];

const IN_PATTERN: [(Tag, Role); 4] = [
    (Tag::Title, Role::Passed),
    (Tag::Paragraph, Role::Passed),
    (Tag::Let, Role::Let),
    (Tag::Rule, Role::Rule),
];

const IN_USE: [(Tag, Role); 3] = [
    (Tag::Title, Role::Passed),
    (Tag::Paragraph, Role::Passed),
    (Tag::Parameter, Role::Parameter),
];

const IN_RULE: [(Tag, Role); 5] = [
    (Tag::Paragraph, Role::Passed),
    (Tag::Let, Role::Let),
    (Tag::Assert, Role::Assert),
    (Tag::Report, Role::Report),
    (Tag::Extends, Role::Extends),
];

const IN_MESSAGE: [(Tag, Role); 5] = [
    (Tag::ValueOf, Role::ValueOf),
    (Tag::NodeName, Role::NodeName),
    (Tag::Emphasis, Role::Wording),
    (Tag::Span, Role::Wording),
    (Tag::Direction, Role::Wording),
];

/// Whether the text is the value's word.
fn is_word<T: Worded>(value: T, text: &str) -> bool
    ensures { result ≡ bytes_eq (T.spelling value) (chars text.now) }
{
    is_same_text(value.word(), text)
}

fn is_schematron(uri: &str) -> bool
    ensures { result ≡ bytes_eq (chars uri.now) schematron }
{
    is_same_text(uri, SCHEMATRON)
}

fn is_true(text: &str) -> bool
    ensures { result ≡ bytes_eq (chars text.now) (codes "true") }
{
    is_same_text(text, "true")
}

/// The role of a child by its local name, among those that may stand there.
fn role_among(children: &[(Tag, Role)], local: &str) -> Role
    ensures { result ≡ spec.role_among children.now (chars local.now) }
{
    'children: for child in children {
        if is_word(child.0, local) {
            return child.1;
        }
    }
    Role::Misplaced
}

/// The role of an element of Schematron in one of the role, its attributes left out.
fn role_inside(parent: Role, local: &str) -> Role
    ensures { result ≡ spec.role_among (spec.children parent) (chars local.now) }
{
    match parent {
        Role::Schema => role_among(&IN_SCHEMA, local),
        Role::Phase => role_among(&IN_PHASE, local),
        Role::Pattern | Role::AbstractPattern => role_among(&IN_PATTERN, local),
        Role::Use => role_among(&IN_USE, local),
        Role::Rule | Role::AbstractRule => role_among(&IN_RULE, local),
        Role::Assert | Role::Report => role_among(&IN_MESSAGE, local),
        _ => Role::Misplaced,
    }
}

/// Whether the attribute `abstract` says so.
fn is_abstract(given: &[Given<'_>]) -> bool
    ensures { result ≡ spec.is_true (spec.value_of (attribute_word Abstract) (map seen_given given.now)) }
{
    match attribute_of(given, Attribute::Abstract) {
        Some(value) => is_true(value),
        None => false,
    }
}

/// Whether the attribute is there.
fn is_given(given: &[Given<'_>], name: Attribute) -> bool
    ensures { result ≡ is_some (spec.value_of (attribute_word name) (map seen_given given.now)) }
{
    attribute_of(given, name).is_some()
}

fn pattern_role(is_abstract: bool, uses: bool) -> Role
    ensures { result ≡ spec.pattern_role is_abstract uses }
{
    match (is_abstract, uses) {
        (true, true) => Role::Misplaced,
        (true, false) => Role::AbstractPattern,
        (false, true) => Role::Use,
        (false, false) => Role::Pattern,
    }
}

fn rule_role(is_abstract: bool) -> Role
    ensures { result ≡ spec.rule_role is_abstract }
{
    if is_abstract {
        Role::AbstractRule
    } else {
        Role::Rule
    }
}

/// The role with what the attributes say.
fn by_attributes(given: &[Given<'_>], role: Role) -> Role
    ensures { result ≡ spec.by_attributes (map seen_given given.now) role }
{
    match role {
        Role::Pattern => pattern_role(is_abstract(given), is_given(given, Attribute::IsA)),
        Role::Rule => rule_role(is_abstract(given)),
        _ => role,
    }
}

fn root_role(is_schematron: bool, local: &str) -> Role
    ensures { result ≡ spec.root_role is_schematron (chars local.now) }
{
    if is_schematron & is_word(Tag::Schema, local) {
        Role::Schema
    } else {
        Role::OtherRoot
    }
}

fn child_role(parent: Role, is_schematron: bool, local: &str, given: &[Given<'_>]) -> Role
    ensures { result ≡ spec.child_role parent is_schematron (chars local.now) (map seen_given given.now) }
{
    if is_schematron {
        by_attributes(given, role_inside(parent, local))
    } else {
        Role::Passed
    }
}

/// The role of an element with this name and these attributes in one of the role.
pub(crate) fn element_role(parent: Role, uri: &str, local: &str, given: &[Given<'_>]) -> Role
    ensures { result ≡ spec.element_role parent (record { uri = chars uri.now; local = chars local.now }) (map seen_given given.now) }
{
    match parent {
        Role::Outside => root_role(is_schematron(uri), local),
        Role::OtherRoot | Role::Misplaced | Role::Passed => Role::Passed,
        _ => child_role(parent, is_schematron(uri), local, given),
    }
}

/// The role of a text in an element of the role.
pub(crate) fn text_role(parent: Role) -> Role
    ensures { result ≡ spec.text_role parent }
{
    match parent {
        Role::Assert | Role::Report | Role::Wording => Role::Characters,
        _ => Role::Passed,
    }
}

/// Whether nodes of the role are listed.
pub(crate) fn is_listed(role: Role) -> bool
    ensures { result ≡ spec.is_listed role }
{
    !matches!(role, Role::Outside | Role::Wording | Role::Passed)
}
