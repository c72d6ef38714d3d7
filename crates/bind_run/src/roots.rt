ghost use Rattle.std.specs.Prelude.{◌≡◌, true, chars, bytes_eq};
ghost use Rattle.node_arena.specs.Moves.{tree_nodes};
ghost use Rattle.bind_rows.specs.Namespaces as namespaces;
ghost use Rattle.bind_meaning.specs.Names.{is_spelled};
ghost use Rattle.bind_run.specs.Ascii.{is_ascii};
ghost use Rattle.bind_run.specs.Roots as spec;

use bind_meaning::{BindFault, BindKind, DocumentType};
use bind_rows::{Namespace, uri_of};
use inv_terms::Name;
use node_arena::{Doc, NodeId};

fn is_word(text: &str, word: &str) -> bool
    requires { is_ascii word.now ≡ true }
    ensures { result ≡ bytes_eq word.now (chars text.now) }
{
    text == word
}

/// Whether an expanded name is that local name in that namespace.
fn is_name(uri: &str, local: &str, namespace: Namespace, word: &str) -> bool
    requires { is_ascii word.now ≡ true }
    ensures { result ≡ is_spelled (namespaces.uri_of namespace) word.now (record { uri = chars uri.now; local = chars local.now }) }
{
    if is_word(local, word) {
        is_word(uri, uri_of(namespace))
    } else {
        false
    }
}

/// The syntax whose root has the expanded name.
fn document_type_named(uri: &str, local: &str) -> Option<DocumentType>
    ensures { result ≡ spec.document_type_named (record { uri = chars uri.now; local = chars local.now }) }
{
    if is_name(uri, local, Namespace::UblInvoice, "Invoice") {
        return Some(DocumentType::Invoice);
    }
    if is_name(uri, local, Namespace::UblCreditNote, "CreditNote") {
        return Some(DocumentType::CreditNote);
    }
    if is_name(uri, local, Namespace::CiiInvoice, "CrossIndustryInvoice") {
        return Some(DocumentType::Cii);
    }
    None
}

fn document_type_of(doc: &Doc<'_>, root: NodeId) -> Option<DocumentType>
    requires { root ≡ 1 }
    ensures { result ≡ spec.document_type_of (tree_nodes doc.now) }
{
    doc.is_of_a_tree();
    match doc.name(root) {
        None => None,
        Some(id) => document_type_named(doc.names().uri(id), doc.names().local(id)),
    }
}

/// The syntax in which a document is written, by the expanded name of its root. Any other root is UnknownRoot, at the root.
/// It takes no memory.
pub fn binding_of(doc: &Doc<'_>) -> Result<DocumentType, BindFault>
    ensures { result ≡ spec.known (spec.document_type_of (tree_nodes doc.now)) }
{
    let root = doc.root();
    match document_type_of(doc, root) {
        Some(document_type) => Ok(document_type),
        None => Err(BindFault {
            kind: BindKind::UnknownRoot,
            name: Name::Nothing,
            node: root,
        }),
    }
}
