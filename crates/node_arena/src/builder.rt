ghost use Rattle.std.specs.Prelude.{◌≡◌, ℕ, ◌<◌, List, map, chars, length, false, IfOk, OnSome, string_bytes};
ghost use Rattle.inv_base.specs.declared.tree.Kind.TheVariants as kinds;
ghost use Rattle.xml_events.specs.Events.{Event, starts, has_attribute, has_text, ends, Takes};
ghost use Rattle.node_arena.specs.Document.{Built, Builds, begun, after, built, last_place};
ghost use Rattle.node_arena.specs.Moves.{IsWhole};
ghost use Rattle.node_arena.specs.Slots.{kept};

use crate::doc::Doc;
use crate::growing::{close, close_all, push_within, settle_text};
use crate::slot::Slot;
use bumpalo::Bump;
use inv_base::{Kind, Place};
use std::alloc::{AllocError, Global};
use std::marker::Model;
use xml_events::{Events, NameId, NameTable};

/// Receives the events of a document and places its texts in the arena.
#[derive(Drop)]
pub struct Builder<'a> {
    alloc: Global,
    bump: &'a Bump,
    nodes: Vec<Slot<'a>>,
    ends: Vec<u32>,
    current: u32,
    // The text that goes on, where a place says that one does: its first piece where that was lent, and the pieces that
    // were copied behind it.
    lent: &'a str,
    text: String,
    text_place: Option<Place>,
}

impl<'a> Model for Builder<'a> {
    ghost use Rattle.std.specs.Prelude.{ℕ, ◌++◌, is_some, chars, string_bytes};
    ghost use Rattle.node_arena.specs.Document.{Built};

    ghost Value = { Built };

    ghost use Rattle.node_arena.specs.Slots.{kept, path, text_nodes, IsGrowing};

    ghost view = { λ b. record {
      nodes = kept b.nodes.items ++ text_nodes (kept b.nodes.items) (path (kept b.nodes.items) b.current)
          (chars b.lent.now ++ chars (string_bytes b.text)) b.text_place;
      open_nodes = path (kept b.nodes.items) b.current;
      in_text = is_some b.text_place;
    } };

    ghost invariant = { λ b. IsGrowing b.nodes.items b.ends.items b.current };
}

impl<'a> Builder<'a> {
    /// A document that has begun: the document node alone.
    pub fn new(alloc: Global, bump: &'a Bump) -> Result<Builder<'a>, AllocError>
        ensures { IfOk result (λ builder. builder ≡ begun) }
    {
        let mut nodes = Vec::with_capacity(alloc, 1)?;
        let mut ends = Vec::with_capacity(alloc, 1)?;
        let document = Slot {
            kind: Kind::Document,
            name: None,
            parent: 0,
            text: "",
            place: Place { byte: 0 },
        };
        push_within(&mut nodes, document);
        push_within(&mut ends, 0);
        Ok(Builder {
            alloc,
            bump,
            nodes,
            ends,
            current: 0,
            lent: "",
            text: String::new(alloc),
            text_place: None,
        })
    }

    /// The document that was built, with its names, where the events were those of a whole one.
    pub fn finish(self, names: NameTable) -> Result<Doc<'a>, AllocError>
        requires { IsWhole names self }
        ensures { IfOk result (λ doc. doc ≡ record { nodes = self.entry.nodes; names = names }) }
    {
        let mut nodes = self.nodes;
        let mut ends = self.ends;
        nodes.shrink_to_fit();
        ends.shrink_to_fit();
        close_all(&nodes, &mut ends, self.current);
        Doc::new(self.alloc, nodes, ends, names)
    }
}

impl<'a> Builder<'a> {
    /// How many nodes there are so far, with the document's and the text that goes on.
    pub fn count_nodes(&self) -> usize
        ensures { result ≡ length self.now.nodes }
    {
        match self.text_place {
            Some(_) => self.nodes.len() + 1,
            None => self.nodes.len(),
        }
    }

    /// An element begins, at the place of its tag.
    pub fn begin_element(&mut self, name: NameId, place: Place) -> Result<(), AllocError>
        ensures { Builds result (starts name place.byte) self.old self.new }
    {
        settle_text(
            self.bump,
            &mut self.nodes,
            &mut self.ends,
            self.current,
            self.lent,
            &self.text,
            self.text_place,
        )?;
        let number = self.nodes.len() as u32;
        let element = Slot {
            kind: Kind::Element,
            name: Some(name),
            parent: self.current,
            text: "",
            place,
        };
        push_within(&mut self.nodes, element);
        push_within(&mut self.ends, number);
        self.current = number;
        self.text_place = None;
        Ok(())
    }

    /// The element that began last has an attribute, whose value is lent: it isn't copied.
    pub fn attribute_lent(&mut self, name: NameId, value: &'a str) -> Result<(), AllocError>
        ensures { Builds result (has_attribute name (chars value.now)) self.old self.new }
    {
        settle_text(
            self.bump,
            &mut self.nodes,
            &mut self.ends,
            self.current,
            self.lent,
            &self.text,
            self.text_place,
        )?;
        let number = self.nodes.len() as u32;
        let attribute = Slot {
            kind: Kind::Attribute,
            name: Some(name),
            parent: self.current,
            text: value,
            place: last_place(&self.nodes),
        };
        push_within(&mut self.nodes, attribute);
        push_within(&mut self.ends, number);
        self.text_place = None;
        Ok(())
    }

    /// A text, or a piece of one, that is lent: it is copied only where it goes on behind a text, or another behind it.
    pub fn text_lent(&mut self, piece: &'a str, place: Place) -> Result<(), AllocError>
        ensures { Builds result (has_text (chars piece.now) place.byte) self.old self.new }
    {
        match self.text_place {
            Some(_) => self.text.push_str(piece)?,
            None => {
                self.text.clear();
                self.lent = piece;
                self.text_place = Some(place);
            }
        }
        Ok(())
    }

    /// The innermost open element ends.
    pub fn end_element(&mut self) -> Result<(), AllocError>
        ensures { Builds result ends self.old self.new }
    {
        settle_text(
            self.bump,
            &mut self.nodes,
            &mut self.ends,
            self.current,
            self.lent,
            &self.text,
            self.text_place,
        )?;
        self.current = close(&self.nodes, &mut self.ends, self.current);
        self.text_place = None;
        Ok(())
    }
}

impl<'a> Events for Builder<'a> {
    ghost taken = { λ builder events. builder ≡ built events };

    fn start(&mut self, name: NameId, place: Place) -> Result<(), AllocError> {
        self.begin_element(name, place)
    }

    fn attribute(&mut self, name: NameId, value: &str) -> Result<(), AllocError> {
        let value = self.bump.try_alloc_str(value)?;
        self.attribute_lent(name, value)
    }

    fn text(&mut self, piece: &str, place: Place) -> Result<(), AllocError> {
        match self.text_place {
            Some(_) => self.text.push_str(piece)?,
            None => {
                self.lent = "";
                self.text.clear();
                self.text.push_str(piece)?;
                self.text_place = Some(place);
            }
        }
        Ok(())
    }

    fn end(&mut self) -> Result<(), AllocError> {
        self.end_element()
    }
}

/// The place of the last node.
fn last_place(nodes: &[Slot<'_>]) -> Place
    requires { 0 < length nodes.now }
    ensures { result.byte ≡ last_place (kept nodes.now) }
{
    nodes[nodes.len() - 1].place
}
