//! What stands behind tokens: the open elements, the bindings of namespaces, the names and the counts.
ghost use Rattle.std.specs.Prelude.{◌≡◌, ◌+◌, ◌<◌, ◌&&◌, nat_lt, false, chars};
ghost use Rattle.inv_base.specs.Characters as characters;
ghost use Rattle.xml_tokens.specs.Faults.{first_cause};
ghost use Rattle.xml_tokens.specs.Markup as markup;
ghost use Rattle.xml_tokens.specs.Seen.{seen_tag, seen_token};
ghost use Rattle.xml_state.specs.Admission.{early_causes, late_causes};
ghost use Rattle.xml_state.specs.States as spec;
ghost use Rattle.xml_state.specs.Taking.{TakesToken, TakesText};

use crate::fault::XmlFault;
use crate::limits::Limits;
use crate::naming::read_names;
use crate::registry::Registry;
use crate::tags::{has_bad_namespace, has_long_name, is_long};
use crate::telling::tell_and_open;
use crate::text::{end_lines, has_carriage_return};
use crate::written::says_nothing;
use inv_base::{Place, is_white_space};
use std::alloc::{AllocError, Global};
use std::marker::Model;
use xml_events::{Events, NameId, NameTable};
use xml_tokens::{Position, StartTag, Token, XmlKind};

/// What stands behind tokens.
pub struct OpenElements {
    scopes: Registry,
    // The numbers of the names of the tag that is read, in place, so that they take no memory at each tag.
    numbers: Vec<NameId>,
    position: Position,
    root_seen: bool,
    in_text: bool,
    nodes: u32,
}

impl Drop for OpenElements {
    fn drop(self) {
        let OpenElements {
            scopes,
            numbers,
            position: _,
            root_seen: _,
            in_text: _,
            nodes: _,
        } = self;
        drop(scopes);
        drop(numbers);
    }
}

impl Model for OpenElements {
    ghost use Rattle.xml_state.specs.States.{State};

    ghost Value = { State };

    ghost view = { λ open_elements. record {
      position = open_elements.position;
      open_elements = open_elements.scopes.open_elements;
      root_seen = open_elements.root_seen;
      in_text = open_elements.in_text;
      nodes = open_elements.nodes;
      names = open_elements.scopes.names;
    } };
}

impl OpenElements {
    /// Nothing is open, and no name was seen.
    pub fn new(alloc: Global) -> Self
        ensures { result ≡ spec.begin }
    {
        OpenElements {
            scopes: Registry::new(alloc),
            numbers: Vec::new(alloc),
            position: Position::AtStart,
            root_seen: false,
            in_text: false,
            nodes: 1,
        }
    }

    /// Where the next place is.
    pub fn position(&self) -> Position
        ensures { result ≡ self.now.position }
    {
        self.position
    }

    /// Whether no element is open.
    pub fn is_outside(&self) -> bool
        ensures { result ≡ spec.is_outside self.now }
    {
        self.scopes.depth() == 0
    }

    /// Whether the root element has begun.
    pub fn root_seen(&self) -> bool
        ensures { result ≡ self.now.root_seen }
    {
        self.root_seen
    }

    /// The names in the order in which they were first seen.
    pub fn into_names(self) -> NameTable
        ensures { result ≡ self.names }
    {
        let OpenElements {
            scopes,
            numbers: _,
            position: _,
            root_seen: _,
            in_text: _,
            nodes: _,
        } = self;
        scopes.into_names()
    }

    /// Passes over white space outside the root, or an aside.
    pub fn pass(&mut self)
        ensures { self.new ≡ spec.behind_aside self.old }
    {
        self.position = Position::Farther;
    }

    /// Takes characters inside an element as a piece of a text, and tells it.
    pub fn tell<E: Events>(
        &mut self,
        limits: &Limits,
        text: &str,
        place: Place,
        events: &mut E,
    ) -> Result<(), XmlFault>
        requires { spec.is_outside self.old ≡ false }
        ensures { TakesText result limits.now self.old self.new (chars text.now) place.byte (E.taken events.old) (E.taken events.new) }
    {
        if !self.in_text && is_beyond(limits.nodes, self.nodes, 1) {
            return Err(XmlFault {
                kind: XmlKind::TooManyNodes,
                place,
            });
        }
        match events.text(text, place) {
            Ok(()) => {}
            Err(_) => return Err(XmlFault::WANT_OF_MEMORY),
        }
        if !self.in_text {
            self.in_text = true;
            self.nodes += 1;
        }
        self.position = Position::Farther;
        Ok(())
    }

    /// Takes a token behind those before, and tells what it holds. Behind an `Err` they are as they come, and of no
    /// more use.
    pub fn take<E: Events>(
        &mut self,
        alloc: Global,
        limits: &Limits,
        token: &Token<'_>,
        place: Place,
        events: &mut E,
    ) -> Result<(), XmlFault>
        ensures { TakesToken result limits.now self.old self.new (seen_token token.now) place.byte (E.taken events.old) (E.taken events.new) }
    {
        match token {
            Token::Mark => {
                self.pass_mark();
                Ok(())
            }
            Token::Aside => {
                self.pass();
                Ok(())
            }
            Token::Character(c) => self.character(limits, *c, place, events),
            Token::Reference(c) => self.reference(limits, *c, place, events),
            Token::Section(section) => self.section(alloc, limits, section.written, place, events),
            Token::StartTag(tag) => self.start_tag(alloc, limits, tag, place, events),
            Token::EndTag(name) => self.end_tag(limits, name, place, events),
        }
    }

    fn pass_mark(&mut self)
        ensures { self.new ≡ spec.state_behind self.old markup.a_mark }
    {
        self.position = Position::BehindMark;
    }

    // Whether the character is white space outside the root.
    fn is_blank_here(&self, c: char) -> bool
        ensures { result ≡ (spec.is_outside self.now && characters.is_white_space c) }
    {
        self.is_outside() && is_white_space(c)
    }

    // Takes a character, which outside the root may be white space.
    fn character<E: Events>(
        &mut self,
        limits: &Limits,
        c: char,
        place: Place,
        events: &mut E,
    ) -> Result<(), XmlFault>
        ensures { TakesToken result limits.now self.old self.new (markup.a_character c) place.byte (E.taken events.old) (E.taken events.new) }
    {
        if self.is_blank_here(c) {
            self.pass();
            return Ok(());
        }
        self.reference(limits, c, place, events)
    }

    // Takes a character that may stand inside an element alone.
    fn reference<E: Events>(
        &mut self,
        limits: &Limits,
        c: char,
        place: Place,
        events: &mut E,
    ) -> Result<(), XmlFault>
        ensures { TakesToken result limits.now self.old self.new (markup.a_reference c) place.byte (E.taken events.old) (E.taken events.new) }
    {
        if self.is_outside() {
            return Err(XmlFault {
                kind: XmlKind::TextOutside,
                place,
            });
        }
        let mut bytes = [0; 4];
        self.tell(limits, c.encode_utf8(&mut bytes), place, events)
    }

    // Takes a CDATA section, whose line ends become LF.
    fn section<E: Events>(
        &mut self,
        alloc: Global,
        limits: &Limits,
        written: &str,
        place: Place,
        events: &mut E,
    ) -> Result<(), XmlFault>
        ensures { TakesToken result limits.now self.old self.new (markup.a_section (markup.with_line_feeds (chars written.now))) place.byte (E.taken events.old)
            (E.taken events.new) }
    {
        if self.is_outside() {
            return Err(XmlFault {
                kind: XmlKind::TextOutside,
                place,
            });
        }
        if says_nothing(written) {
            self.pass();
            return Ok(());
        }
        if !has_carriage_return(written) {
            return self.tell(limits, written, place, events);
        }
        match end_lines(alloc, written) {
            Ok(text) => self.tell(limits, text.as_str(), place, events),
            Err(_) => Err(XmlFault::WANT_OF_MEMORY),
        }
    }

    fn end_tag<E: Events>(
        &mut self,
        limits: &Limits,
        name: &str,
        place: Place,
        events: &mut E,
    ) -> Result<(), XmlFault>
        ensures { TakesToken result limits.now self.old self.new (markup.an_end_tag name.now) place.byte (E.taken events.old) (E.taken events.new) }
    {
        if is_long(limits, name) {
            return Err(XmlFault {
                kind: XmlKind::NameTooLong,
                place,
            });
        }
        if !self.scopes.is_innermost(name) {
            return Err(XmlFault {
                kind: XmlKind::Mismatched,
                place,
            });
        }
        match events.end() {
            Ok(()) => {}
            Err(_) => return Err(XmlFault::WANT_OF_MEMORY),
        }
        self.scopes.close();
        self.in_text = false;
        self.position = Position::Farther;
        Ok(())
    }

    // The kinds of fault that a start tag shows before its declarations are taken.
    fn early_kind(&self, limits: &Limits, tag: &StartTag<'_>) -> Option<XmlKind>
        ensures { result ≡ first_cause (early_causes limits.now self.now (seen_tag tag.now)) }
    {
        if tag.attributes.len() > limits.attributes as usize {
            return Some(XmlKind::TooManyAttributes);
        }
        if has_long_name(limits, tag) {
            return Some(XmlKind::NameTooLong);
        }
        if self.is_second_root() {
            return Some(XmlKind::SecondRoot);
        }
        if has_bad_namespace(&tag.attributes) {
            return Some(XmlKind::BadNamespace);
        }
        None
    }

    fn is_second_root(&self) -> bool
        ensures { result ≡ (spec.is_outside self.now && self.now.root_seen) }
    {
        self.is_outside() && self.root_seen
    }

    // The limits that a start tag passes, whose names are among the names already; it has so many nodes.
    fn late_kind(&self, limits: &Limits, nodes: usize) -> Option<XmlKind>
        requires { 0 < nodes }
        ensures { result ≡ first_cause (late_causes limits.now self.now.open_elements self.now.names (self.now.nodes + nodes)) }
    {
        if is_full(limits.depth, self.scopes.depth()) {
            return Some(XmlKind::TooDeep);
        }
        if self.scopes.count_names() > limits.names as usize {
            return Some(XmlKind::TooManyNames);
        }
        if is_beyond(limits.nodes, self.nodes, nodes) {
            return Some(XmlKind::TooManyNodes);
        }
        None
    }

    fn start_tag<E: Events>(
        &mut self,
        alloc: Global,
        limits: &Limits,
        tag: &StartTag<'_>,
        place: Place,
        events: &mut E,
    ) -> Result<(), XmlFault>
        ensures { TakesToken result limits.now self.old self.new (markup.a_start_tag (seen_tag tag.now)) place.byte (E.taken events.old) (E.taken events.new) }
    {
        if let Some(kind) = self.early_kind(limits, tag) {
            return Err(XmlFault { kind, place });
        }
        let fault = match read_names(alloc, &mut self.scopes, &mut self.numbers, tag) {
            Ok(fault) => fault,
            Err(_) => return Err(XmlFault::WANT_OF_MEMORY),
        };
        if let Some(kind) = fault {
            return Err(XmlFault { kind, place });
        }
        if let Some(kind) = self.late_kind(limits, self.numbers.len()) {
            return Err(XmlFault { kind, place });
        }
        match tell_and_open(&mut self.scopes, tag, &self.numbers, place, events) {
            Ok(()) => {}
            Err(_) => return Err(XmlFault::WANT_OF_MEMORY),
        }
        self.nodes += self.numbers.len() as u32;
        self.root_seen = true;
        self.in_text = false;
        self.position = Position::Farther;
        Ok(())
    }
}

// Whether one more is beyond the limit.
fn is_full(limit: u32, count: usize) -> bool
    ensures { result ≡ nat_lt limit (count + 1) }
{
    count >= limit as usize
}

// Whether a count and more are beyond the limit.
fn is_beyond(limit: u32, count: u32, more: usize) -> bool
    requires { 0 < more }
    ensures { result ≡ nat_lt limit (count + more) }
{
    count >= limit || more > (limit - count) as usize
}
