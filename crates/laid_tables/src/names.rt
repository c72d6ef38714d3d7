//! Which names can be written (Namespaces in XML 1.0, production 4).
ghost use Rattle.std.specs.Prelude.{◌≡◌, ◌&&◌};
ghost use Rattle.std.specs.List.{list_all, list_any};
ghost use Rattle.std.specs.Str.{chars};
ghost use Rattle.inv_base.specs.Characters.{is_name_char};
ghost use Rattle.bind_rows.specs.declared.names.Leaf.TheVariants as leaves;
ghost use Rattle.bind_rows.specs.Same.{same_namespace};
ghost use Rattle.bind_table.specs.Laid as laid;
ghost use Rattle.laid_tables.specs.Lines as spec;

use bind_rows::{ElementName, Leaf, Namespace, declared_by};
use inv_base::{is_name_char, is_name_start, is_same_text};

fn begins_as_name(name: &str) -> bool
    ensures { result ≡ spec.begins_as_name (chars name.now) }
{
    match name.chars().next() {
        Some(first) => is_name_start(first),
        None => false,
    }
}

/// Whether a name may go on with each of the characters.
fn goes_on_as_name(name: &str) -> bool
    ensures { result ≡ list_all is_name_char (chars name.now) }
{
    name.chars().all(|c| is_name_char(c))
}

/// NCName. What a name may begin with it may go on with, so the first character is asked twice.
fn is_ncname(name: &str) -> bool
    ensures { result ≡ laid.is_ncname (chars name.now) }
{
    begins_as_name(name) && goes_on_as_name(name)
}

fn is_same_namespace(a: Namespace, b: Namespace) -> bool
    ensures { result ≡ same_namespace a b }
{
    a == b
}

fn is_among(namespaces: &[Namespace], namespace: Namespace) -> bool
    ensures { result ≡ list_any (same_namespace namespace) namespaces.now }
{
    namespaces
        .iter()
        .any(|other| is_same_namespace(namespace, *other))
}

/// Whether a document declares the namespace, whose root is in the first one.
fn is_declared(root: Namespace, namespace: Namespace) -> bool
    ensures { result ≡ laid.is_declared root namespace }
{
    is_among(declared_by(root), namespace)
}

/// Whether an element of the name can be written below a root of that namespace.
pub(crate) fn is_writable_name(root: Namespace, name: &ElementName) -> bool
    ensures { result ≡ (laid.is_ncname name.now.local && laid.is_declared root name.now.namespace) }
{
    is_ncname(name.local.as_str()) && is_declared(root, name.namespace)
}

/// Whether an attribute has a name that the writing of documents gives to attributes of its own.
fn is_taken(name: &str) -> bool
    ensures { result ≡ spec.is_taken (chars name.now) }
{
    is_same_text(name, "xmlns") || is_same_text(name, "currencyID")
}

fn is_writable_attribute(name: &str) -> bool
    ensures { result ≡ laid.is_writable_leaf (leaves.Attribute (chars name.now)) }
{
    is_ncname(name) && !is_taken(name)
}

/// Whether a row can be written that ends there.
pub(crate) fn is_writable_leaf(leaf: &Leaf) -> bool
    ensures { result ≡ laid.is_writable_leaf leaf.now }
{
    match leaf {
        Leaf::Element => true,
        Leaf::Attribute(name) => is_writable_attribute(name.as_str()),
    }
}
