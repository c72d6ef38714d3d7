//! Document order, each node once (XPath 2.0, section 2.4.1).
ghost use Rattle.std.specs.Prelude.{◌≡◌, ℕ, List, ◌∷◌, filter, true};
ghost use Rattle.inv_base.specs.Tree.{Node, is_among};
ghost use Rattle.xpath_meaning.specs.Steps.{in_document_order};
ghost use Rattle.xpath_walks.specs.Order.{AreNumbers, node_items, rises};
ghost use Rattle.xpath_walks.specs.Walks.{node_numbers};

use node_arena::NodeId;

/// Nodes whose numbers rise are in document order, each once. It has no code.
pub fn rising_nodes_are_in_order()
    ensures { (all : List Node) (ns : List ℕ) → AreNumbers all ns → rises ns ≡ true
        → node_items ns ≡ in_document_order all (node_items ns) }
{}

/// The nodes in document order, each once: the document's nodes that are among them. Where they rise already, as the
/// nodes of most axes do, nothing is sorted.
pub fn in_order(nodes: Vec<NodeId>) -> Vec<NodeId>
    ensures numbers { (all : List Node) → AreNumbers all nodes.items
        → result.items ≡ node_numbers (filter (λ (node : Node). is_among node.number nodes.items) all) }
    ensures items { (all : List Node) → AreNumbers all nodes.items
        → node_items result.items ≡ in_document_order all (node_items nodes.items) }
{
    if is_rising(nodes.as_slice()) {
        nodes
    } else {
        sorted(nodes)
    }
}

/// The nodes sorted, each once.
fn sorted(nodes: Vec<NodeId>) -> Vec<NodeId>
    ensures rises { rises result.items ≡ true }
    ensures same { (n : ℕ) → is_among n result.items ≡ is_among n nodes.items }
{
    let mut ordered = nodes;
    ordered.sort_unstable();
    ordered.dedup();
    ordered
}

/// Whether each node stands before the next in document order.
fn is_rising(nodes: &[NodeId]) -> bool
    ensures { result ≡ rises nodes.now }
{
    match nodes.first() {
        Some(first) => rises_behind(*first, &nodes[1..]),
        None => true,
    }
}

/// Whether each node stands before the next, the first one given apart.
fn rises_behind(first: NodeId, others: &[NodeId]) -> bool
    ensures { result ≡ rises (first ∷ others.now) }
{
    let mut last = first;
    'nodes: for n in others {
        if n.number() <= last.number() {
            return false;
        }
        last = *n;
    }
    true
}
