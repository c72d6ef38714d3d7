//! The document that grows of the nodes of files.
ghost use Rattle.std.specs.Prelude.{◌≡◌, ℕ, ◌+◌, ◌-◌, ◌<◌, ◌≤◌, length, drop, chars, option_map, IfOk, OnOk};
ghost use Rattle.std.specs.Option.{ForSome};
ghost use Rattle.xml_events.specs.Events.{name_at};
ghost use Rattle.xml_events.specs.Names.{number_of, with_name};
ghost use Rattle.node_arena.specs.Document.{node_at};
ghost use Rattle.rule_library.specs.Whole.{TellsDocument};
ghost use Rattle.rule_library.specs.Asked.{given_at};
ghost use Rattle.rule_library.specs.Joining as spec;
ghost use Rattle.rule_library.specs.Walk.{own_name, name_or_none};

use crate::asking;
use crate::faults::LoadKind;
use crate::moves::next_of;
use bumpalo::Bump;
use inv_base::Place;
use node_arena::{
    Builder, Doc, NodeId, events_build_a_whole_document, events_build_the_nodes_of_their_tree,
};
use std::alloc::{AllocError, Global};
use std::marker::Model;
use xml_events::{NameId, NameTable};
use xml_state::RULE_LIMITS;

/// How many bytes of texts and values are joined at most: a text of white space that is put in twice by each file
/// doubles with each.
const TEXTS: u64 = 268_435_456;

/// How many nodes may be open in what a part puts in: as many elements as in a rule file, and the document's node.
const DEPTH: usize = RULE_LIMITS.depth as usize + 1;

/// How many nodes a document may have that parts are put in.
const NODES: usize = RULE_LIMITS.nodes as usize;

/// How many names a document may have that parts are put in.
const NAMES: usize = RULE_LIMITS.names as usize;

/// How many nodes a document may have at all: they are numbered by 32 bits.
const NUMBERS: usize = 4_294_967_295;

/// What is joined so far.
pub(crate) struct Joined<'a> {
    builder: Builder<'a>,
    names: NameTable,
    // How many nodes are open, the document's among them.
    depth: usize,
    // How many bytes of texts and values were put in.
    texts: u64,
}

impl Drop for Joined<'_> {
    fn drop(self) {
        let Joined {
            builder,
            names,
            depth: _,
            texts: _,
        } = self;
        drop(builder);
        drop(names);
    }
}

impl<'a> Model for Joined<'a> {
    ghost use Rattle.std.specs.Prelude.{◌≡◌, ◌<◌, length};
    ghost use Rattle.rule_library.specs.Readings.{Joined};

    ghost Value = { Joined };

    ghost view = { λ j. record { built = j.builder; names = j.names } };

    ghost invariant = { λ j. (j.depth ≡ length j.builder.open_nodes) × (0 < j.depth) };
}

impl<'a> Joined<'a> {
    /// Nothing yet.
    pub(crate) fn new(alloc: Global, bump: &'a Bump) -> Result<Joined<'a>, AllocError>
        ensures { IfOk result (λ joined. joined ≡ spec.nothing_joined) }
    {
        let builder = Builder::new(alloc, bump)?;
        Ok(Joined {
            builder,
            names: NameTable::new(alloc),
            depth: 1,
            texts: 0,
        })
    }

    /// How many nodes are open.
    pub(crate) fn count_open(&self) -> usize
        ensures count { result ≡ length self.now.built.open_nodes }
        ensures some { 0 < result }
    {
        self.depth
    }

    /// Elements end until so many nodes are open.
    pub(crate) fn close_to(&mut self, n: usize) -> Result<(), AllocError>
        requires { 0 < n }
        ensures { OnOk result (self.new ≡ spec.closed_to n self.old) }
    {
        'ends: while n < self.depth {
            self.builder.end_element()?;
            self.depth -= 1;
        }
        Ok(())
    }

    /// A text, at its place among the files, or a piece of one.
    pub(crate) fn put_text(&mut self, text: &'a str, place: Place) -> Result<(), AllocError>
        ensures { OnOk result (self.new ≡ spec.with_text (chars text.now) place.byte self.old) }
    {
        self.texts = counted(self.texts, text)?;
        self.builder.text_lent(text, place)
    }

    /// An element begins that has the name of a node of a file.
    fn put_start(
        &mut self,
        names: &NameTable,
        id: Option<NameId>,
        place: Place,
    ) -> Result<(), AllocError>
        requires { ForSome id (λ n. n < length names.now) }
        ensures { OnOk result (self.new ≡ spec.with_start (name_or_none (option_map (name_at names.now) id)) place.byte self.old) }
    {
        let number = number_in(&mut self.names, names, id)?;
        let Some(depth) = self.depth.checked_add(1) else {
            return Err(AllocError);
        };
        self.builder.begin_element(number, place)?;
        self.depth = depth;
        Ok(())
    }

    /// The element that began last has an attribute of a file.
    fn put_attribute(
        &mut self,
        names: &NameTable,
        id: NameId,
        value: &'a str,
    ) -> Result<(), AllocError>
        requires { id < length names.now }
        ensures { OnOk result (self.new ≡ spec.with_attribute (record { name = name_at names.now id; value = chars value.now }) self.old) }
    {
        self.texts = counted(self.texts, value)?;
        let number = number_in(&mut self.names, names, Some(id))?;
        self.builder.attribute_lent(number, value)
    }

    /// The element that began last has the attributes of a file's element.
    fn put_attributes(&mut self, doc: &Doc<'a>, n: NodeId) -> Result<(), AllocError>
        requires { n < length doc.now.nodes }
        ensures { OnOk result (self.new ≡ spec.with_attributes (given_at doc.now.names (drop (n + 1) doc.now.nodes)) self.old) }
    {
        let mut at = next_of(doc, n);
        'attributes: while let Some(given) = asking::given_at(doc, at) {
            self.put_attribute(doc.names(), given.name, doc.text(given.node))?;
            at = next_of(doc, given.node);
        }
        Ok(())
    }

    /// An element of a file begins, with its attributes.
    pub(crate) fn put_element(
        &mut self,
        doc: &Doc<'a>,
        n: NodeId,
        place: Place,
    ) -> Result<(), AllocError>
        requires { n < length doc.now.nodes }
        ensures { OnOk result (self.new ≡ spec.with_element (own_name doc.now (node_at doc.now.nodes n))
            (given_at doc.now.names (drop (n + 1) doc.now.nodes)) place.byte self.old) }
    {
        self.put_start(doc.names(), doc.name(n), place)?;
        self.put_attributes(doc, n)
    }

    /// The limit that is passed, of what a part has put in.
    pub(crate) fn passed_limit(&self, is_part: bool) -> Option<LoadKind>
        ensures { result ≡ spec.passed_limit is_part self.now }
    {
        if !is_part {
            return None;
        }
        if DEPTH < self.depth {
            return Some(LoadKind::TooDeep);
        }
        if NODES < self.builder.count_nodes() {
            return Some(LoadKind::TooManyNodes);
        }
        if NAMES < self.names.len() {
            return Some(LoadKind::TooManyNames);
        }
        None
    }

    /// The document, where it is a whole one. More nodes than have numbers are answered as want of memory.
    pub(crate) fn finish(self) -> Result<Doc<'a>, AllocError>
        requires { TellsDocument self }
        ensures { IfOk result (λ doc. doc ≡ record { nodes = self.entry.built.nodes; names = self.entry.names }) }
    {
        // Laws, which have no code.
        events_build_the_nodes_of_their_tree();
        events_build_a_whole_document();
        let Joined {
            builder,
            names,
            depth: _,
            texts: _,
        } = self;
        if builder.count_nodes() <= NUMBERS {
            builder.finish(names)
        } else {
            drop(builder);
            drop(names);
            Err(AllocError)
        }
    }
}

/// The number of the name of a node of a file, among the names of all files.
fn number_in(
    table: &mut NameTable,
    names: &NameTable,
    id: Option<NameId>,
) -> Result<NameId, AllocError>
    requires { ForSome id (λ n. n < length names.now) }
    ensures number { IfOk result (λ n. n ≡ number_of (name_or_none (option_map (name_at names.now) id)) table.old) }
    ensures names { OnOk result (table.new ≡ with_name table.old (name_or_none (option_map (name_at names.now) id))) }
{
    match id {
        Some(id) => table.number(names.uri(id), names.local(id)),
        None => table.number("", ""),
    }
}

/// So many bytes more, where that aren't too many.
fn counted(texts: u64, text: &str) -> Result<u64, AllocError>
    ensures { IfOk result (λ all. (all ≡ texts + length text.now)) }
{
    match texts.checked_add(text.len() as u64) {
        Some(all) => {
            if all <= TEXTS {
                Ok(all)
            } else {
                Err(AllocError)
            }
        }
        None => Err(AllocError),
    }
}
