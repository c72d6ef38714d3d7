//! A comment or a processing instruction whose bytes come in pieces: of those that came, only what can still matter is
//! kept.
ghost use Rattle.std.specs.Prelude.{◌≡◌, ◌≤◌, ◌++◌, ◌&&◌, ◌||◌, ℕ, List, Bool, length, drop, not, true, codes, Some, IfSome, option_and_then};
ghost use Rattle.xml_tokens.specs.Asides as spec;
ghost use Rattle.xml_tokens.specs.Spelling as spelling;
ghost use Rattle.xml_tokens.specs.Searches as searches;
ghost use Rattle.xml_tokens.specs.Markup.{ends_target};
ghost use Rattle.xml_tokens.specs.References as references;
ghost use Rattle.xml_tokens.specs.Beginnings.{beginning};
ghost use Rattle.xml_tokens.specs.declared.asides.OpenAside.{OpenAside};
ghost use Rattle.xml_tokens.specs.declared.beginning.Position.{Position};

use crate::beginning::Position;
use crate::comments::InComment;
use crate::extents::may_declare;
use crate::instructions::InInstruction;
use crate::kind::XmlKind;
use crate::names::is_white_space;
use crate::references::if_char;
use crate::scanning::{begins_with, ends_inside};
use crate::spelling::{Spelling, ended, spelling_behind};

/// What can still matter of the inside, but for its characters.
#[derive(Clone, Copy)]
pub enum Inner {
    Comment(InComment),
    Instruction(InInstruction),
}

/// A comment or a processing instruction that has begun and not ended, by what of its bytes can still matter.
#[derive(Clone, Copy)]
pub struct OpenAside {
    pub(crate) spelling: Spelling,
    pub(crate) has_wrong: bool,
    pub(crate) inner: Inner,
}

/// The end of a comment or an instruction.
#[derive(Clone, Copy)]
pub struct ClosedAside {
    /// Why it is none, if so.
    pub fault: Option<XmlKind>,
    /// How many of the bytes belong to it.
    pub len: usize,
}

/// The Char of the number, if there is one and it is one.
fn char_of(number: Option<u32>) -> Option<char>
    ensures { result ≡ option_and_then references.if_char number }
{
    match number {
        Some(number) => if_char(number),
        None => None,
    }
}

/// Whether the number is that of no Char.
fn is_wrong(number: Option<u32>) -> bool
    ensures { result ≡ spelling.is_wrong number }
{
    match number {
        Some(number) => if_char(number).is_none(),
        None => false,
    }
}

/// The fault of what stands inside, by its own one where all are Chars.
fn fault_by(spelling: Spelling, has_wrong: bool, own: Option<XmlKind>) -> Option<XmlKind>
    ensures { result ≡ spec.fault_by spelling has_wrong own }
{
    match spelling {
        Spelling::Between if has_wrong => Some(XmlKind::BadChar),
        Spelling::Between => own,
        _ => Some(XmlKind::NotUtf8),
    }
}

/// Whether nothing is left, or white space is first.
fn ends_target(bytes: &[u8]) -> bool
    ensures { result ≡ ends_target bytes.now }
{
    match bytes {
        [first, ..] => is_white_space(*first),
        [] => true,
    }
}

/// Whether the bytes spell `<?xml` and white space.
fn begins_declaration(bytes: &[u8]) -> bool
    ensures { result ≡ (searches.begins_with (codes "<?xml") bytes.now && ends_target (drop 5 bytes.now)) }
{
    begins_with(b"<?xml", bytes) && ends_target(bytes.split_at(5).1)
}

/// Whether the bytes are the XML declaration or may become it.
fn may_be_declaration(position: Position, bytes: &[u8]) -> bool
    ensures { result ≡ spec.may_be_declaration position bytes.now }
{
    may_declare(position) && (ends_inside(b"<?xml", bytes) || begins_declaration(bytes))
}

/// Whether the bytes begin an instruction that is no declaration.
fn begins_instruction(position: Position, bytes: &[u8]) -> bool
    ensures exact { result ≡ (searches.begins_with (codes "<?") bytes.now && not (spec.may_be_declaration position bytes.now)) }
    ensures bound { result ≡ true → 2 ≤ length bytes.now }
{
    begins_with(b"<?", bytes) && !may_be_declaration(position, bytes)
}

impl Inner {
    /// Whether the byte ends it.
    fn is_ended_by(self, byte: u8) -> bool
        ensures { result ≡ spec.is_ended_by self byte }
    {
        match self {
            Inner::Comment(comment) => comment.is_ended_by(byte),
            Inner::Instruction(instruction) => instruction.is_ended_by(byte),
        }
    }

    /// The same with a byte that doesn't end it, and the Char that the byte ends if any.
    fn behind(self, byte: u8, c: Option<char>) -> Inner
        ensures { result ≡ spec.inner_behind self byte c }
    {
        match self {
            Inner::Comment(comment) => Inner::Comment(comment.behind(byte)),
            Inner::Instruction(instruction) => Inner::Instruction(instruction.behind(byte, c)),
        }
    }

    /// The fault of what stands inside, where all are Chars.
    fn own_fault(self) -> Option<XmlKind>
        ensures { result ≡ spec.own_fault self }
    {
        match self {
            Inner::Comment(comment) => comment.own_fault(),
            Inner::Instruction(instruction) => instruction.own_fault(),
        }
    }

    /// What begins so and goes on by these bytes, if it is open behind them.
    fn opened_by(self, bytes: &[u8]) -> Option<OpenAside>
        ensures { (n : ℕ) → result ≡ spec.if_open (spec.course n (spec.begun self) bytes.now) }
    {
        let mut aside = OpenAside {
            spelling: Spelling::Between,
            has_wrong: false,
            inner: self,
        };
        match aside.take(bytes) {
            Some(_) => None,
            None => Some(aside),
        }
    }
}

impl OpenAside {
    /// The open comment or instruction that these bytes at a place are, if they are one and can't become the XML
    /// declaration.
    pub fn of(position: Position, bytes: &[u8]) -> Option<OpenAside>
        ensures { result ≡ spec.open_aside position bytes.now }
    {
        if begins_with(b"<!--", bytes) {
            Inner::Comment(InComment::new()).opened_by(bytes.split_at(4).1)
        } else if begins_instruction(position, bytes) {
            Inner::Instruction(InInstruction::new()).opened_by(bytes.split_at(2).1)
        } else {
            None
        }
    }

    /// Passes over a byte that doesn't end it.
    fn pass(&mut self, byte: u8)
        ensures { self.new ≡ spec.aside_behind self.old byte }
    {
        let number = ended(self.spelling, byte);
        self.has_wrong = self.has_wrong || is_wrong(number);
        self.inner = self.inner.behind(byte, char_of(number));
        self.spelling = spelling_behind(self.spelling, byte);
    }

    /// The fault of what stands inside.
    fn fault(&self) -> Option<XmlKind>
        ensures { result ≡ spec.fault_inside self.now }
    {
        fault_by(self.spelling, self.has_wrong, self.inner.own_fault())
    }

    /// Takes further bytes, up to the end of the comment or instruction if it is among them.
    pub fn take(&mut self, bytes: &[u8]) -> Option<ClosedAside>
        ensures within { IfSome result (λ closed. closed.len ≤ length bytes.now) }
        ensures course { (n : ℕ) → spec.course n self.old bytes.now ≡ spec.found_course n self.new result }
    {
        'bytes: for (i, byte) in bytes.iter().enumerate() {
            if self.inner.is_ended_by(*byte) {
                return Some(ClosedAside {
                    fault: self.fault(),
                    len: i + 1,
                });
            }
            self.pass(*byte);
        }
        None
    }
}

/// What an open comment or instruction begins with further bytes, and what it is with them, hangs on what is kept of it
/// and on how many bytes came.
pub fn open_asides_go_on()
    ensures begins { (position : Position) (bytes more : List ℕ) (aside : OpenAside) (ended : Bool) → spec.open_aside position bytes ≡ Some aside →
        beginning position ended (bytes ++ more) ≡ spec.begins_by (spec.course (length bytes) aside more) }
    ensures grows { (position : Position) (bytes more : List ℕ) (aside : OpenAside) → spec.open_aside position bytes ≡ Some aside →
        spec.open_aside position (bytes ++ more) ≡ spec.if_open (spec.course (length bytes) aside more) }
{}
