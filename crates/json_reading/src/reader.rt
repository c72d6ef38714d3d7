ghost use Rattle.std.specs.Prelude.{◌≡◌, ◌+◌, ◌<◌, ◌≤◌, ◌^◌, length, reverse, IfOk, OnOk};
ghost use Rattle.json_reading.specs.Reading as spec;
ghost use Rattle.json_reading.specs.Standing.{state_of, Follows, Becomes, Says};

use crate::fault::{JsonFault, JsonKind};
use crate::item::{Container, Item, ItemKind, Span};
use crate::mode::{Form, Mode, NumberMode, Turn};
use crate::numbers::{form_behind, is_whole};
use crate::turns::turn;
use std::alloc::{AllocError, Global};

/// An object or array whose end isn't read.
#[derive(Clone, Copy)]
pub struct Open {
    pub container: Container,
    /// Where its item stands among the items.
    pub index: usize,
    /// Its item, as far as it is known.
    pub head: Item,
}

/// How far a text is read.
pub(crate) struct Reader {
    pub(crate) mode: Mode,
    /// The name of the value to come.
    pub(crate) name: Option<Span>,
    /// The innermost comes last.
    pub(crate) around: Vec<Open>,
    pub(crate) items: Vec<Item>,
}

impl Drop for Reader {
    fn drop(self) {
        let Reader {
            mode: _,
            name: _,
            around,
            items,
        } = self;
        drop(around);
        drop(items);
    }
}

fn kind_of(container: Container) -> ItemKind
    ensures { result ≡ spec.kind_of container }
{
    match container {
        Container::Object => ItemKind::Object,
        Container::Array => ItemKind::Array,
    }
}

/// What comes behind its opening bracket.
fn first_of(container: Container) -> Mode
    ensures { result ≡ spec.first_of container }
{
    match container {
        Container::Object => Mode::FirstMember,
        Container::Array => Mode::FirstItem,
    }
}

/// Whether a number has ended before the next byte, or at the end of the text.
fn has_ended(form: Form, next: Option<u8>) -> bool
    ensures { result ≡ spec.has_ended form next }
{
    match next {
        None => is_whole(form),
        Some(byte) => match form_behind(form, byte) {
            None => is_whole(form),
            Some(_) => false,
        },
    }
}

fn if_ended(number: NumberMode, next: Option<u8>) -> Option<NumberMode>
    ensures { result ≡ spec.if_ended number next }
{
    if has_ended(number.form, next) {
        Some(number)
    } else {
        None
    }
}

/// The number that ends at the place, if one does.
#[tactic(auto, unfolding(crate::specs::Reading::number_ended))]
fn number_ended(mode: Mode, next: Option<u8>) -> Option<NumberMode>
    ensures { result ≡ spec.number_ended mode next }
{
    match mode {
        Mode::Number(number) => if_ended(number, next),
        Mode::Start => None,
        Mode::SecondOfMark => None,
        Mode::ThirdOfMark => None,
        Mode::Value => None,
        Mode::FirstItem => None,
        Mode::FirstMember => None,
        Mode::Name => None,
        Mode::Colon => None,
        Mode::Behind => None,
        Mode::Text(_) => None,
        Mode::Word(_) => None,
    }
}

fn innermost(around: &[Open]) -> Option<Container>
    ensures { result ≡ spec.innermost (reverse around.now) }
{
    match around.last() {
        Some(last) => Some(last.container),
        None => None,
    }
}

/// Whether a value has been read, and none is open around it.
#[tactic(auto, unfolding(crate::specs::Reading::is_behind))]
fn is_behind(mode: Mode, innermost: Option<Container>) -> bool
    ensures { result ≡ spec.is_behind mode innermost }
{
    match mode {
        Mode::Behind => is_top(innermost),
        Mode::Start => false,
        Mode::SecondOfMark => false,
        Mode::ThirdOfMark => false,
        Mode::Value => false,
        Mode::FirstItem => false,
        Mode::FirstMember => false,
        Mode::Name => false,
        Mode::Colon => false,
        Mode::Text(_) => false,
        Mode::Number(_) => false,
        Mode::Word(_) => false,
    }
}

/// Whether nothing is open around a place.
fn is_top(innermost: Option<Container>) -> bool
    ensures { result ≡ spec.is_top innermost }
{
    match innermost {
        None => true,
        Some(_) => false,
    }
}

/// The item of an object or array whose closing bracket stands at the place, with so many items in all.
fn whole(at: u32, ended: Open, count: usize) -> Item
    requires { at + 1 < 2 ^ 32 }
    ensures { result ≡ spec.whole at ended count }
{
    Item {
        kind: ended.head.kind,
        name: ended.head.name,
        value: Span {
            at: ended.head.value.at,
            end: at + 1,
            escaped: false,
        },
        inside: count.saturating_sub(ended.index).saturating_sub(1),
    }
}

/// Puts another item in the place of one.
fn put(items: &mut [Item], index: usize, item: Item)
    ensures { items.new ≡ spec.put items.old index item }
{
    if index < items.len() {
        items[index] = item;
    }
}

impl Reader {
    /// Nothing is read.
    pub(crate) fn new(alloc: Global) -> Reader
        ensures { state_of result ≡ spec.start }
    {
        Reader {
            mode: Mode::Start,
            name: None,
            around: Vec::new(alloc),
            items: Vec::new(alloc),
        }
    }

    /// A value without values inside has been read.
    fn tell(&mut self, kind: ItemKind, value: Span) -> Result<(), AllocError>
        ensures { OnOk result (state_of self.new ≡ spec.told kind value (state_of self.old)) }
    {
        self.items.push(Item {
            kind,
            name: self.name,
            value,
            inside: 0,
        })?;
        self.name = None;
        self.mode = Mode::Behind;
        Ok(())
    }

    /// A number that doesn't go on has been read.
    fn settle(&mut self, at: u32, next: Option<u8>) -> Result<(), AllocError>
        ensures { OnOk result (state_of self.new ≡ spec.settled at next (state_of self.old)) }
    {
        match number_ended(self.mode, next) {
            Some(number) => self.tell(
                ItemKind::Number,
                Span {
                    at: number.start,
                    end: at,
                    escaped: false,
                },
            ),
            None => Ok(()),
        }
    }

    /// An object or array begins.
    fn begin(&mut self, at: u32, container: Container) -> Result<(), AllocError>
        requires { at + 1 < 2 ^ 32 }
        ensures { OnOk result (state_of self.new ≡ spec.begun at container (state_of self.old)) }
    {
        let head = Item {
            kind: kind_of(container),
            name: self.name,
            value: Span {
                at,
                end: at + 1,
                escaped: false,
            },
            inside: 0,
        };
        let index = self.items.len();
        self.items.push(head)?;
        self.around.push(Open {
            container,
            index,
            head,
        })?;
        self.name = None;
        self.mode = first_of(container);
        Ok(())
    }

    /// An object or array begins, where it isn't too deep.
    #[tactic(auto, using(crate::proofs::ReaderLemmas::told_follows))]
    fn begin_within(
        &mut self,
        deepest: usize,
        at: u32,
        container: Container,
    ) -> Result<(), JsonFault>
        requires { at + 1 < 2 ^ 32 }
        ensures { Follows result (state_of self.new) (spec.begun_within deepest at container (state_of self.old)) }
    {
        if self.around.len() < deepest {
            told(self.begin(at, container), at)
        } else {
            Err(JsonFault {
                kind: JsonKind::TooDeep,
                at: at as u64,
            })
        }
    }

    /// The innermost object or array ends.
    fn close(&mut self, at: u32) -> Result<(), JsonFault>
        requires { at + 1 < 2 ^ 32 }
        ensures { Follows result (state_of self.new) (spec.closed at (state_of self.old)) }
    {
        match self.around.pop() {
            Some(ended) => {
                let item = whole(at, ended, self.items.len());
                put(&mut self.items, ended.index, item);
                self.mode = Mode::Behind;
                Ok(())
            }
            None => Err(JsonFault {
                kind: JsonKind::NotJson,
                at: at as u64,
            }),
        }
    }

    /// Does what a byte does.
    #[tactic(auto, unfolding(crate::specs::Reading::act), using(crate::proofs::ReaderLemmas::told_follows))]
    fn act(&mut self, deepest: usize, at: u32, turn: Turn) -> Result<(), JsonFault>
        requires { at + 1 < 2 ^ 32 }
        ensures { Follows result (state_of self.new) (spec.act deepest at turn (state_of self.old)) }
    {
        match turn {
            Turn::Goes(mode) => {
                self.mode = mode;
                Ok(())
            }
            Turn::Stops(fault) => Err(fault),
            Turn::Names(span) => {
                self.name = Some(span);
                self.mode = Mode::Colon;
                Ok(())
            }
            Turn::Tells(kind, span) => told(self.tell(kind, span), at),
            Turn::Begins(container) => self.begin_within(deepest, at, container),
            Turn::Closes => self.close(at),
        }
    }

    /// Reads a byte.
    #[tactic(auto, unfolding(crate::specs::Reading::step))]
    pub(crate) fn step(&mut self, deepest: usize, at: u32, byte: u8) -> Result<(), JsonFault>
        requires { at + 1 < 2 ^ 32 }
        ensures { Follows result (state_of self.new) (spec.step deepest at byte (state_of self.old)) }
    {
        match self.settle(at, Some(byte)) {
            Ok(()) => {
                let next = turn(at, byte, self.mode, innermost(&self.around));
                self.act(deepest, at, next)
            }
            Err(_) => Err(memory(at)),
        }
    }

    /// The text ends at the place.
    pub(crate) fn finish(mut self, at: u32) -> Result<Vec<Item>, JsonFault>
        ensures { Says result (spec.ended at (state_of self)) }
    {
        match self.settle(at, None) {
            Ok(()) => self.end(at),
            Err(_) => {
                drop(self);
                Err(memory(at))
            }
        }
    }

    fn end(self, at: u32) -> Result<Vec<Item>, JsonFault>
        ensures { Says result (spec.ended_by at (state_of self)) }
    {
        if is_behind(self.mode, innermost(&self.around)) {
            let Reader {
                mode: _,
                name: _,
                around,
                items,
            } = self;
            drop(around);
            Ok(items)
        } else {
            drop(self);
            Err(JsonFault {
                kind: JsonKind::Truncated,
                at: at as u64,
            })
        }
    }
}

fn memory(at: u32) -> JsonFault
    ensures { result ≡ spec.fault JsonKind.Memory at }
{
    JsonFault {
        kind: JsonKind::Memory,
        at: at as u64,
    }
}

/// Want of memory as a fault.
fn told(done: Result<(), AllocError>, at: u32) -> Result<(), JsonFault>
    ensures { Becomes done result }
{
    match done {
        Ok(()) => Ok(()),
        Err(_) => Err(memory(at)),
    }
}
