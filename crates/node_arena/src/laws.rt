ghost use Rattle.std.specs.Prelude.{◌≡◌, ℕ, List, ◌<◌, ◌^◌, length, map, filter, ◌+◌, Some};
ghost use Rattle.inv_base.specs.Tree.{Name, Node, Forest, IsDocument, size};
ghost use Rattle.xml_events.specs.Events.{Event, name_at};
ghost use Rattle.xml_events.specs.Documents.{Tells};
ghost use Rattle.xml_events.specs.Names.{AreDistinct, find_name};
ghost use Rattle.node_arena.specs.Document.{Document, built, node_at, AreNamed};
ghost use Rattle.node_arena.specs.Moves.{tree_nodes, tree_node, HasNodesOf, IsWhole, behind, is_inside, last_inside, is_between, first_that, has_name};
ghost use Rattle.node_arena.specs.Moves.{has_found, chain, first_named, next_named};
ghost use Rattle.node_arena.specs.Walks.{LeadsOn};

/// The events of a document build the nodes of its tree one for one, with the numbers of all their
/// ancestors. So what a move answers among the nodes that were built is what it is in the tree.
pub fn events_build_the_nodes_of_their_tree()
    ensures { (names : List Name) (tree : Forest) (events : List Event) → IsDocument tree → Tells names tree events
        → HasNodesOf (record { nodes = (built events).nodes; names = names }) tree }
{}

/// The events of a document of fewer than 2^32 nodes build one that can be finished.
pub fn events_build_a_whole_document()
    ensures { (names : List Name) (tree : Forest) (events : List Event) → IsDocument tree → Tells names tree events → size tree + 1 < 2 ^ 32
        → IsWhole names (built events) }
{}

/// In a document's tree the moves lead from each node to the next in document order.
pub fn moves_lead_on()
    ensures { (document : Document) (tree : Forest) → HasNodesOf document tree
        → (n : ℕ) → n < length document.nodes → LeadsOn (tree_nodes document) n }
{}

/// What is inside a node at any depth stands right behind it, up to the last that is.
pub fn insides_are_intervals()
    ensures { (document : Document) (tree : Forest) → HasNodesOf document tree
        → (n k : ℕ) → n < length document.nodes → k < length document.nodes
        → is_inside n (tree_node (tree_nodes document) k) ≡ is_between n (last_inside (tree_nodes document) n) k }
{}

/// An element or attribute has a name exactly where its name's number is the one that the table of names
/// finds for it. `Doc::is_of_a_tree` says the premises of every document.
pub fn names_are_found_by_number()
    ensures { (document : Document) (name : Name) (n : ℕ)
        → AreDistinct document.names → AreNamed (length document.names) document.nodes
        → n < length document.nodes
        → has_name name (tree_node (tree_nodes document) n)
        ≡ has_found (find_name name document.names) (node_at document.nodes n) }
{}

/// The chain of a name is of its expanded name: it has the numbers of all elements and attributes that
/// have that name, in document order. So its first and its next are the first of the tree's nodes that
/// have the name. `Doc::is_of_a_tree` says the premises of every document.
pub fn chains_are_of_expanded_names()
    ensures chain { (document : Document) (name : ℕ)
        → AreDistinct document.names → AreNamed (length document.names) document.nodes
        → name < length document.names
        → chain document.nodes name ≡ map (λ (node : Node). node.number)
        (filter (has_name (name_at document.names name)) (tree_nodes document)) }
    ensures first { (document : Document) (name : ℕ)
        → AreDistinct document.names → AreNamed (length document.names) document.nodes
        → name < length document.names
        → first_named document.nodes name
        ≡ first_that (has_name (name_at document.names name)) (tree_nodes document) }
    ensures next { (document : Document) (n name : ℕ)
        → AreDistinct document.names → AreNamed (length document.names) document.nodes
        → (node_at document.nodes n).name ≡ Some name → name < length document.names
        → next_named document.nodes n
        ≡ first_that (has_name (name_at document.names name)) (behind n (tree_nodes document)) }
{}
