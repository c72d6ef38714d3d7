ghost use Rattle.std.specs.Prelude.{◌≡◌, ◌≢◌, ◌++◌, List, [], ℕ, Some, None, Err, IfOk};
ghost use Rattle.xml_events.specs.Events.{TakesAll};
ghost use Rattle.xml_profile.specs.Readers.{HasRead, HasMemory, Answers, Tells, Ends, unread, fault_of_reader, kept};
ghost use Rattle.xml_profile.specs.Fields.{Feeds, EndsAt};

use crate::cursor::{Cursor, Inside, Reading};
use std::alloc::{AllocError, Global};
use std::marker::Model;
use xml_events::{Events, NameTable};
use xml_state::{Limits, XmlFault};

/// Reads a document, in pieces, and tells a receiver what it holds. It keeps the bytes of the unfinished token and
/// nothing else of the input: of an unfinished comment or processing instruction no byte, but which faults were seen.
pub struct Reader {
    alloc: Global,
    limits: Limits,
    cursor: Cursor,
    // the bytes of what begins at the cursor and isn't a token yet
    rest: Vec<u8>,
    // the comment or instruction that is open at the cursor, of which no byte is kept
    aside: Option<Inside>,
    // the fault that was answered
    fault: Option<XmlFault>,
}

impl Drop for Reader {
    fn drop(self) {
        let Reader {
            alloc: _,
            limits: _,
            cursor,
            rest,
            aside: _,
            fault: _,
        } = self;
        drop(cursor);
        drop(rest);
    }
}

impl Model for Reader {
    ghost use Rattle.xml_profile.specs.Readers.{Progress};

    ghost Value = { Progress };

    ghost use Rattle.xml_profile.specs.Fields.{progress_of, IsSound};

    ghost view = { λ reader. progress_of reader.limits reader.fault reader.aside reader.cursor reader.rest.items };

    ghost invariant = { λ reader. IsSound reader.limits reader.fault reader.aside reader.cursor reader.rest.items };
}

impl Reader {
    /// A reader that was given nothing.
    pub fn new(alloc: Global, limits: Limits) -> Result<Reader, AllocError>
        ensures { IfOk result (λ reader. reader ≡ unread limits) }
    {
        Ok(Reader {
            alloc,
            limits,
            cursor: Cursor::new(alloc),
            rest: Vec::new(alloc),
            aside: None,
            fault: None,
        })
    }

    /// Takes a further piece of the document. A fault is answered as soon as no further byte can change it, and then at
    /// each call. `NoRoot` and `Truncated` come from `finish` alone.
    pub fn feed<E: Events>(&mut self, piece: &[u8], events: &mut E) -> Result<(), XmlFault>
        ensures limits { self.new.limits ≡ self.old.limits }
        ensures answer { Answers result (fault_of_reader self.new) }
        ensures read { HasMemory self.new → (fed : List ℕ) → HasRead self.old fed → HasRead self.new (fed ++ piece.now) }
        ensures told { (fed : List ℕ) → HasRead self.old fed → Tells self.new fed (fed ++ piece.now) (E.taken events.old) (E.taken events.new) }
        ensures stopped { fault_of_reader self.old ≢ None → (self.new ≡ self.old) × TakesAll [] (E.taken events.old) (E.taken events.new) }
    {
        self.feed_piece(piece, events)
    }

    fn feed_piece<E: Events>(&mut self, piece: &[u8], events: &mut E) -> Result<(), XmlFault>
        ensures { Feeds result self.old self.new piece.now (E.taken events.old) (E.taken events.new) }
    {
        if let Some(fault) = self.fault {
            return Err(fault);
        }
        let reading = Reading {
            alloc: self.alloc,
            limits: self.limits,
            ended: false,
        };
        match self
            .cursor
            .feed(reading, &mut self.aside, &mut self.rest, piece, events)
        {
            Ok(()) => Ok(()),
            Err(fault) => {
                self.rest.clear();
                self.fault = Some(fault);
                Err(fault)
            }
        }
    }

    /// How many bytes of the document are kept: those of the unfinished token, and none behind a finished one, inside a
    /// comment, inside a processing instruction that can't be the XML declaration, or behind a fault.
    pub fn kept(&self) -> usize
        ensures { result ≡ kept self.now }
    {
        self.rest.as_slice().len()
    }

    /// Ends the document: its names, or its first fault. Where `feed` has answered a fault, it is answered again.
    pub fn finish<E: Events>(self, events: &mut E) -> Result<NameTable, XmlFault>
        ensures ended { (fed : List ℕ) → HasRead self fed → Ends (λ table. table) result self.limits fed (E.taken events.old) (E.taken events.new) }
        ensures stopped { (fault : _) → fault_of_reader self ≡ Some fault → (result ≡ Err fault) × TakesAll [] (E.taken events.old) (E.taken events.new) }
    {
        self.end(events)
    }

    fn end<E: Events>(self, events: &mut E) -> Result<NameTable, XmlFault>
        ensures { EndsAt result self (E.taken events.old) (E.taken events.new) }
    {
        let Reader {
            alloc,
            limits,
            mut cursor,
            rest,
            aside,
            fault,
        } = self;
        if let Some(fault) = fault {
            return Err(fault);
        }
        if let Some(held) = aside {
            return cursor.end(limits.bytes, held.came);
        }
        let reading = Reading {
            alloc,
            limits,
            ended: true,
        };
        match cursor.read(reading, &rest, events) {
            Ok(left) => cursor.end(limits.bytes, left.len() as u64),
            Err(fault) => Err(fault),
        }
    }
}
