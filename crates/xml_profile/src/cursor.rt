//! Where reading stands as long as nothing is wrong, and one turn of it: a token, or a run of characters that are
//! tokens one by one.
ghost use Rattle.std.specs.Prelude.{◌≡◌, ℕ, ◌∷◌, List, ◌<◌, ◌≤◌, ◌+◌, ◌++◌, ◌-◌, [], ◌^◌, Some, None, drop, length, vec_len, slice_index, nat_le, true, false};
ghost use Rattle.std.specs.Prelude.{Bool, IfSome, MatchResult, if◌then◌else◌};
ghost use Rattle.xml_tokens.specs.Beginnings.{beginning, good, sure_length};
ghost use Rattle.xml_tokens.specs.Asides.{begins_by, ends_with};
ghost use Rattle.xml_tokens.specs.Markup.{an_aside};
ghost use Rattle.xml_tokens.specs.Searching.{fresh};
ghost use Rattle.xml_tokens.specs.Plain.{plain_token};
ghost use Rattle.xml_tokens.specs.Seen.{seen_token};
ghost use Rattle.xml_tokens.specs.declared.beginning.Position.{Position};
ghost use Rattle.xml_tokens.specs.declared.beginning.Position.TheVariants.{Farther};
ghost use Rattle.xml_tokens.specs.declared.kind.XmlKind.TheVariants as kinds;
ghost use Rattle.xml_state.specs.Faults.{fault_at};
ghost use Rattle.xml_state.specs.States.{begin, is_outside};
ghost use Rattle.xml_profile.specs.Profile.{end_fault};
ghost use Rattle.xml_profile.specs.Courses.{is_blank, IsAt, Turns, Reaches, Breaks, IsInside, InsideOf, kept_len, AsideTurns, IsKeptOf, IsGoing, StandsInside};
ghost use Rattle.xml_profile.specs.Courses.{Leaves};

use inv_base::Place;
use std::alloc::{AllocError, Global};
use xml_events::{Events, NameTable};
use xml_state::{Limits, OpenElements, XmlFault};
use xml_tokens::{
    Beginning, ClosedAside, OpenAside, PlainTag, Position, Search, Token, XmlKind, plain_tag,
    run_at_front, what_begins,
};

/// Where reading stands: what stands behind the tokens before, how many bytes they take, and how far the next one was
/// searched.
pub(crate) struct Cursor {
    pub open_elements: OpenElements,
    pub place: u64,
    pub search: Search,
}

impl Drop for Cursor {
    fn drop(self) {
        let Cursor {
            open_elements,
            place: _,
            search,
        } = self;
        drop(open_elements);
        drop(search);
    }
}

/// A comment or instruction that is open where reading stands: what can still matter of it, and how many bytes came.
#[derive(Clone, Copy)]
pub(crate) struct Inside {
    pub aside: OpenAside,
    pub came: u64,
}

/// How bytes are read: with memory of this allocator, within these limits, and as the last ones or not.
#[derive(Clone, Copy)]
pub(crate) struct Reading {
    pub alloc: Global,
    pub limits: Limits,
    pub ended: bool,
}

/// What a turn finds.
pub(crate) enum Turn<'b> {
    /// The bytes behind what was read.
    Behind(&'b [u8]),
    /// What begins here isn't whole.
    Unfinished,
    /// A fault, or want of memory.
    Stopped(XmlFault),
}

fn fault_at(kind: XmlKind, byte: u64) -> XmlFault
    ensures { result ≡ fault_at kind byte }
{
    XmlFault {
        kind,
        place: Place { byte },
    }
}

fn too_long(limit: u64) -> XmlFault
    ensures { result ≡ fault_at kinds.TooLong limit }
{
    fault_at(XmlKind::TooLong, limit)
}

/// How many bytes of what isn't a token yet it has whatever follows: a `]` may be a token by itself.
fn sure_len(bytes: &[u8]) -> usize
    requires { 0 < length bytes.now }
    ensures { (b : ℕ) (more : List ℕ) → bytes.now ≡ b ∷ more → result ≡ sure_length b more }
{
    if bytes[0] == b']' { 1 } else { bytes.len() }
}

/// The open comment or instruction that the bytes at such a place are, if they are one.
fn inside_at(position: Position, bytes: &[u8]) -> Option<Inside>
    ensures { InsideOf position result bytes.now }
{
    match OpenAside::of(position, bytes) {
        Some(aside) => Some(Inside {
            aside,
            came: bytes.len() as u64,
        }),
        None => None,
    }
}

/// How many of the bytes of what isn't whole are kept: of a comment or instruction none.
fn kept_len(inside: Option<Inside>, len: usize) -> usize
    ensures { result ≡ kept_len inside len }
{
    match inside {
        Some(_) => 0,
        None => len,
    }
}

/// Leaves the last so many bytes.
fn keep_back(bytes: &mut Vec<u8>, len: usize)
    requires { len ≤ vec_len bytes.old }
    ensures { bytes.new.items ≡ drop (length bytes.old.items - len) bytes.old.items }
{
    let passed = bytes.len() - len;
    if passed > 0 {
        bytes.copy_within(passed.., 0);
        bytes.truncate(len);
    }
}

fn is_blank(byte: u8) -> bool
    ensures { result ≡ is_blank byte }
{
    byte == b' ' || byte == b'\t' || byte == b'\n'
}

/// How many bytes at the front are white space that is a token by itself.
fn blank_len(bytes: &[u8]) -> usize
    ensures within { result ≤ length bytes.now }
    ensures blank { (k : ℕ) → k < result → is_blank (slice_index bytes.now k) ≡ true }
{
    for (i, byte) in bytes.iter().enumerate() {
        if !is_blank(*byte) {
            return i;
        }
    }
    bytes.len()
}

/// The bytes that end within so many.
fn front_within(bytes: &[u8], room: u64) -> &[u8]
    ensures front { bytes.now ≡ result.now ++ drop (length result.now) bytes.now }
    ensures within { length result.now ≤ room }
{
    if bytes.len() as u64 <= room {
        return bytes;
    }
    let (front, _) = bytes.split_at(room as usize);
    front
}

impl Cursor {
    /// Before the first byte.
    pub fn new(alloc: Global) -> Cursor
        ensures { (result.open_elements ≡ begin) × (result.place ≡ 0) × (result.search ≡ fresh) }
    {
        Cursor {
            open_elements: OpenElements::new(alloc),
            place: 0,
            search: Search::new(),
        }
    }

    /// The open comment or instruction that the bytes here are, if they are one.
    fn inside_of(&self, bytes: &[u8]) -> Option<Inside>
        ensures { InsideOf self.now.open_elements.position result bytes.now }
    {
        inside_at(self.open_elements.position(), bytes)
    }

    /// Whether so many further bytes end within the limit.
    fn has_room(&self, limit: u64, len: usize) -> bool
        requires { self.now.place ≤ limit }
        ensures { result ≡ nat_le (self.now.place + len) limit }
    {
        len as u64 <= limit - self.place
    }

    /// Whether so many bytes and so many further ones end within the limit.
    fn has_room_behind(&self, limit: u64, came: u64, len: usize) -> bool
        requires { self.now.place + came ≤ limit }
        ensures { result ≡ nat_le (self.now.place + (came + len)) limit }
    {
        len as u64 <= limit - self.place - came
    }

    /// The fault that so many bytes show, or that they end beyond the limit.
    fn fault_within(&self, limit: u64, kind: XmlKind, len: usize) -> XmlFault
        requires { self.now.place ≤ limit }
        ensures { result ≡ (if nat_le (self.now.place + len) limit then fault_at kind self.now.place else fault_at kinds.TooLong limit) }
    {
        if self.has_room(limit, len) {
            fault_at(kind, self.place)
        } else {
            too_long(limit)
        }
    }

    /// Passes so many bytes. Answers those behind.
    fn advance<'b>(&mut self, bytes: &'b [u8], len: usize) -> &'b [u8]
        requires within { len ≤ length bytes.now }
        requires room { self.old.place + len < 2 ^ 64 }
        ensures behind { result.now ≡ drop len bytes.now }
        ensures cursor { self.new ≡ record { open_elements = self.old.open_elements; place = self.old.place + len; search = fresh } }
    {
        self.move_on(len as u64);
        bytes.split_at(len).1
    }

    /// Stands behind so many further bytes.
    fn move_on(&mut self, len: u64)
        requires { self.old.place + len < 2 ^ 64 }
        ensures { self.new ≡ record { open_elements = self.old.open_elements; place = self.old.place + len; search = fresh } }
    {
        self.place += len;
        self.search = Search::new();
    }

    /// Takes the token of so many bytes that begins here.
    fn take<'b, E: Events>(
        &mut self,
        reading: Reading,
        token: &Token<'b>,
        len: usize,
        bytes: &'b [u8],
        events: &mut E,
    ) -> Turn<'b>
        requires within { self.old.place ≤ reading.limits.bytes }
        requires begins { beginning self.old.open_elements.position reading.ended bytes.now ≡ good (seen_token token.now) len }
        ensures { Turns result reading.ended reading.limits self.old self.new bytes.now (E.taken events.old) (E.taken events.new) }
    {
        if !self.has_room(reading.limits.bytes, len) {
            return Turn::Stopped(too_long(reading.limits.bytes));
        }
        let place = Place { byte: self.place };
        match self
            .open_elements
            .take(reading.alloc, &reading.limits, token, place, events)
        {
            Ok(()) => Turn::Behind(self.advance(bytes, len)),
            Err(fault) => Turn::Stopped(fault),
        }
    }

    /// The tag that begins here, where it is a name of ASCII and nothing else. One that was searched for its end before isn't
    /// looked at again.
    fn plain_tag<'b>(&self, bytes: &'b [u8]) -> Option<PlainTag<'b>>
        ensures { IfSome result (λ tag. (position : Position) → (ended : Bool) → beginning position ended bytes.now ≡ good (plain_token tag) tag.len) }
    {
        if self.search.is_fresh() {
            plain_tag(bytes)
        } else {
            None
        }
    }

    /// Takes such a tag.
    fn take_plain<'b, E: Events>(
        &mut self,
        reading: Reading,
        tag: PlainTag<'b>,
        bytes: &'b [u8],
        events: &mut E,
    ) -> Turn<'b>
        requires within { self.old.place ≤ reading.limits.bytes }
        requires begins { beginning self.old.open_elements.position reading.ended bytes.now ≡ good (plain_token tag) tag.len }
        ensures { Turns result reading.ended reading.limits self.old self.new bytes.now (E.taken events.old) (E.taken events.new) }
    {
        let token = tag.token(reading.alloc);
        let turn = self.take(reading, &token, tag.len, bytes, events);
        drop(token);
        turn
    }

    /// Takes a token, or finds that none is whole.
    fn token<'b, E: Events>(
        &mut self,
        reading: Reading,
        bytes: &'b [u8],
        events: &mut E,
    ) -> Turn<'b>
        requires at { IsAt reading.limits self.old bytes.now }
        requires some { 0 < length bytes.now }
        ensures { Turns result reading.ended reading.limits self.old self.new bytes.now (E.taken events.old) (E.taken events.new) }
    {
        match self.plain_tag(bytes) {
            Some(tag) => self.take_plain(reading, tag, bytes, events),
            None => self.any_token(reading, bytes, events),
        }
    }

    /// The same of a token of any sort.
    fn any_token<'b, E: Events>(
        &mut self,
        reading: Reading,
        bytes: &'b [u8],
        events: &mut E,
    ) -> Turn<'b>
        requires at { IsAt reading.limits self.old bytes.now }
        requires some { 0 < length bytes.now }
        ensures { Turns result reading.ended reading.limits self.old self.new bytes.now (E.taken events.old) (E.taken events.new) }
    {
        let position = self.open_elements.position();
        match what_begins(
            reading.alloc,
            position,
            reading.ended,
            bytes,
            &mut self.search,
        ) {
            Ok(Beginning::Good(token, len)) => self.take(reading, &token, len, bytes, events),
            Ok(Beginning::Bad(kind, len)) => Turn::Stopped(self.fault_within(
                reading.limits.bytes,
                kind,
                len,
            )),
            Ok(Beginning::Later) => {
                if self.has_room(reading.limits.bytes, sure_len(bytes)) {
                    Turn::Unfinished
                } else {
                    Turn::Stopped(too_long(reading.limits.bytes))
                }
            }
            Err(AllocError) => Turn::Stopped(XmlFault::WANT_OF_MEMORY),
        }
    }

    /// Passes over white space outside the root, or else takes one token.
    fn outside<'b, E: Events>(
        &mut self,
        reading: Reading,
        bytes: &'b [u8],
        events: &mut E,
    ) -> Turn<'b>
        requires at { IsAt reading.limits self.old bytes.now }
        requires some { 0 < length bytes.now }
        requires outside { is_outside self.old.open_elements ≡ true }
        requires position { self.old.open_elements.position ≡ Farther }
        ensures { Turns result reading.ended reading.limits self.old self.new bytes.now (E.taken events.old) (E.taken events.new) }
    {
        let len = blank_len(front_within(bytes, reading.limits.bytes - self.place));
        if len == 0 {
            return self.token(reading, bytes, events);
        }
        self.open_elements.pass();
        Turn::Behind(self.advance(bytes, len))
    }

    /// Takes characters inside an element that are tokens one by one, or else one token.
    fn inside<'b, E: Events>(
        &mut self,
        reading: Reading,
        bytes: &'b [u8],
        events: &mut E,
    ) -> Turn<'b>
        requires at { IsAt reading.limits self.old bytes.now }
        requires some { 0 < length bytes.now }
        requires inside { is_outside self.old.open_elements ≡ false }
        requires position { self.old.open_elements.position ≡ Farther }
        ensures { Turns result reading.ended reading.limits self.old self.new bytes.now (E.taken events.old) (E.taken events.new) }
    {
        let text = run_at_front(front_within(bytes, reading.limits.bytes - self.place));
        if text.is_empty() {
            return self.token(reading, bytes, events);
        }
        let place = Place { byte: self.place };
        match self
            .open_elements
            .tell(&reading.limits, text, place, events)
        {
            Ok(()) => Turn::Behind(self.advance(bytes, text.len())),
            Err(fault) => Turn::Stopped(fault),
        }
    }

    /// Takes a token or a run of characters, or finds that none is whole.
    fn turn<'b, E: Events>(&mut self, reading: Reading, bytes: &'b [u8], events: &mut E) -> Turn<'b>
        requires at { IsAt reading.limits self.old bytes.now }
        requires some { 0 < length bytes.now }
        ensures { Turns result reading.ended reading.limits self.old self.new bytes.now (E.taken events.old) (E.taken events.new) }
    {
        match self.open_elements.position() {
            Position::AtStart | Position::BehindMark => return self.token(reading, bytes, events),
            Position::Farther => {}
        }
        if self.open_elements.is_outside() {
            self.outside(reading, bytes, events)
        } else {
            self.inside(reading, bytes, events)
        }
    }

    /// Takes token behind token. Answers the bytes of what isn't one yet.
    pub fn read<'b, E: Events>(
        &mut self,
        reading: Reading,
        bytes: &'b [u8],
        events: &mut E,
    ) -> Result<&'b [u8], XmlFault>
        requires { IsAt reading.limits self.old bytes.now }
        ensures { MatchResult result
            (λ rest. Reaches reading.ended reading.limits self.old self.new bytes.now rest.now (E.taken events.old) (E.taken events.new))
            (λ fault. Breaks reading.ended reading.limits self.old bytes.now (E.taken events.old) (E.taken events.new) fault) }
    {
        let mut rest = bytes;
        'turns: while !rest.is_empty() {
            match self.turn(reading, rest, events) {
                Turn::Behind(behind) => rest = behind,
                Turn::Unfinished => return Ok(rest),
                Turn::Stopped(fault) => return Err(fault),
            }
        }
        Ok(rest)
    }

    /// Passes over a comment or instruction that ends with so many bytes, behind which these are.
    fn pass_aside<'b, E: Events>(
        &mut self,
        reading: Reading,
        len: u64,
        behind: &'b [u8],
        events: &mut E,
    ) -> Turn<'b>
        requires { self.old.place + len ≤ reading.limits.bytes }
        ensures { (held : _) (bytes : List ℕ) → beginning self.old.open_elements.position reading.ended bytes ≡ good an_aside len → behind.now ≡ drop len bytes
            → AsideTurns result reading.ended reading.limits self.old self.new held bytes (E.taken events.old) (E.taken events.new) }
    {
        let place = Place { byte: self.place };
        match self.open_elements.take(
            reading.alloc,
            &reading.limits,
            &Token::Aside,
            place,
            events,
        ) {
            Ok(()) => {
                self.move_on(len);
                Turn::Behind(behind)
            }
            Err(fault) => Turn::Stopped(fault),
        }
    }

    /// Takes the end of a comment or instruction of which so many bytes came before the piece.
    fn close<'b, E: Events>(
        &mut self,
        reading: Reading,
        came: u64,
        closed: ClosedAside,
        piece: &'b [u8],
        events: &mut E,
    ) -> Turn<'b>
        requires within { self.old.place + came ≤ reading.limits.bytes }
        requires inside { closed.len ≤ length piece.now }
        ensures { (held : _) (bytes : List ℕ) → length bytes ≡ came → beginning self.old.open_elements.position reading.ended (bytes ++ piece.now) ≡ begins_by
            (ends_with closed.fault (came + closed.len))
            → AsideTurns result reading.ended reading.limits self.old self.new held (bytes ++ piece.now) (E.taken events.old) (E.taken events.new) }
    {
        if !self.has_room_behind(reading.limits.bytes, came, closed.len) {
            return Turn::Stopped(too_long(reading.limits.bytes));
        }
        match closed.fault {
            Some(kind) => Turn::Stopped(fault_at(kind, self.place)),
            None => {
                let behind = piece.split_at(closed.len).1;
                self.pass_aside(reading, came + closed.len as u64, behind, events)
            }
        }
    }

    /// Gives a comment or instruction that is open the piece, up to its end.
    fn aside<'b, E: Events>(
        &mut self,
        reading: Reading,
        held: &mut Inside,
        piece: &'b [u8],
        events: &mut E,
    ) -> Turn<'b>
        requires { self.old.place + held.old.came ≤ reading.limits.bytes }
        ensures { (bytes : List ℕ) → IsInside self.old.open_elements.position held.old bytes
            → AsideTurns result reading.ended reading.limits self.old self.new held.new (bytes ++ piece.now) (E.taken events.old) (E.taken events.new) }
    {
        match held.aside.take(piece) {
            Some(closed) => self.close(reading, held.came, closed, piece, events),
            None => {
                if !self.has_room_behind(reading.limits.bytes, held.came, piece.len()) {
                    return Turn::Stopped(too_long(reading.limits.bytes));
                }
                held.came += piece.len() as u64;
                Turn::Unfinished
            }
        }
    }

    /// Reads a further piece, behind the rest of those before or inside a comment or instruction. Of what isn't a token
    /// yet the bytes are the new rest, but of a comment or instruction none is kept.
    pub fn feed<E: Events>(
        &mut self,
        reading: Reading,
        inside: &mut Option<Inside>,
        rest: &mut Vec<u8>,
        piece: &[u8],
        events: &mut E,
    ) -> Result<(), XmlFault>
        requires { IsGoing reading.limits inside.old self.old rest.old.items }
        ensures { (bytes : List ℕ) → IsKeptOf inside.old self.old rest.old.items bytes → MatchResult result
            (λ _. Leaves reading.ended reading.limits self.old self.new (bytes ++ piece.now) inside.new rest.new.items (E.taken events.old)
            (E.taken events.new))
            (λ fault. Breaks reading.ended reading.limits self.old (bytes ++ piece.now) (E.taken events.old) (E.taken events.new) fault) }
    {
        match *inside {
            Some(held) => self.feed_aside(reading, held, inside, rest, piece, events),
            None => self.feed_rest(reading, inside, rest, piece, events),
        }
    }

    /// Reads a piece inside a comment or instruction.
    fn feed_aside<E: Events>(
        &mut self,
        reading: Reading,
        held: Inside,
        inside: &mut Option<Inside>,
        rest: &mut Vec<u8>,
        piece: &[u8],
        events: &mut E,
    ) -> Result<(), XmlFault>
        requires { StandsInside reading.limits held self.old rest.old.items }
        ensures { (bytes : List ℕ) → IsInside self.old.open_elements.position held bytes → MatchResult result
            (λ _. Leaves reading.ended reading.limits self.old self.new (bytes ++ piece.now) inside.new rest.new.items (E.taken events.old)
            (E.taken events.new))
            (λ fault. Breaks reading.ended reading.limits self.old (bytes ++ piece.now) (E.taken events.old) (E.taken events.new) fault) }
    {
        let mut longer = held;
        match self.aside(reading, &mut longer, piece, events) {
            Turn::Behind(behind) => self.feed_anew(reading, inside, rest, behind, events),
            Turn::Unfinished => {
                *inside = Some(longer);
                Ok(())
            }
            Turn::Stopped(fault) => Err(fault),
        }
    }

    /// Reads a piece behind the rest.
    fn feed_rest<E: Events>(
        &mut self,
        reading: Reading,
        inside: &mut Option<Inside>,
        rest: &mut Vec<u8>,
        piece: &[u8],
        events: &mut E,
    ) -> Result<(), XmlFault>
        requires { IsAt reading.limits self.old (rest.old.items ++ piece.now) }
        ensures { MatchResult result
            (λ _. Leaves reading.ended reading.limits self.old self.new (rest.old.items ++ piece.now) inside.new rest.new.items (E.taken events.old)
            (E.taken events.new))
            (λ fault. Breaks reading.ended reading.limits self.old (rest.old.items ++ piece.now) (E.taken events.old) (E.taken events.new) fault) }
    {
        if rest.is_empty() {
            return self.feed_anew(reading, inside, rest, piece, events);
        }
        if rest.extend_from_slice(piece).is_err() {
            return Err(XmlFault::WANT_OF_MEMORY);
        }
        match self.read(reading, rest, events) {
            Ok(left) => {
                let held = self.inside_of(left);
                let len = kept_len(held, left.len());
                keep_back(rest, len);
                *inside = held;
                Ok(())
            }
            Err(fault) => Err(fault),
        }
    }

    /// Reads bytes where there is no rest: of them only what is left is kept, and of a comment or instruction nothing.
    fn feed_anew<E: Events>(
        &mut self,
        reading: Reading,
        inside: &mut Option<Inside>,
        rest: &mut Vec<u8>,
        piece: &[u8],
        events: &mut E,
    ) -> Result<(), XmlFault>
        requires at { IsAt reading.limits self.old (rest.old.items ++ piece.now) }
        requires empty { rest.old.items ≡ [] }
        ensures { MatchResult result
            (λ _. Leaves reading.ended reading.limits self.old self.new (rest.old.items ++ piece.now) inside.new rest.new.items (E.taken events.old)
            (E.taken events.new))
            (λ fault. Breaks reading.ended reading.limits self.old (rest.old.items ++ piece.now) (E.taken events.old) (E.taken events.new) fault) }
    {
        match self.read(reading, piece, events) {
            Ok(left) => {
                let held = self.inside_of(left);
                let len = kept_len(held, left.len());
                if rest.extend_from_slice(left.split_at(len).0).is_err() {
                    return Err(XmlFault::WANT_OF_MEMORY);
                }
                *inside = held;
                Ok(())
            }
            Err(fault) => Err(fault),
        }
    }

    /// Ends the document behind its tokens, where so many bytes are left that are none, within the limit.
    pub fn end(self, limit: u64, left: u64) -> Result<NameTable, XmlFault>
        requires { self.place + left ≤ limit }
        ensures { (rest : List ℕ) → length rest ≡ left → MatchResult result
            (λ table. (end_fault self.open_elements self.place rest ≡ None) × (table ≡ self.open_elements.names))
            (λ fault. end_fault self.open_elements self.place rest ≡ Some fault) }
    {
        let Cursor {
            open_elements,
            place,
            search: _,
        } = self;
        if left > 0 {
            return Err(fault_at(XmlKind::Truncated, place + left));
        }
        if !open_elements.is_outside() {
            return Err(fault_at(XmlKind::Truncated, place));
        }
        if !open_elements.root_seen() {
            return Err(fault_at(XmlKind::NoRoot, place));
        }
        Ok(open_elements.into_names())
    }
}
