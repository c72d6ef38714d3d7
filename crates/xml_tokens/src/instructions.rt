//! What can still matter of an open processing instruction, but for its characters.
ghost use Rattle.std.specs.Prelude.{◌≡◌, not, ◌&&◌};
ghost use Rattle.xml_tokens.specs.Instructions as spec;

use crate::kind::XmlKind;
use crate::markup::is_target_char;
use inv_base::{is_name_char, is_name_start, is_white_space};

/// How many letters of `xml` were met, or that it is another name.
#[derive(Clone, Copy)]
pub enum Letters {
    Zero,
    One,
    Two,
    Three,
    Other,
}

/// Whether nothing has come of a name, or a name, or what begins none.
#[derive(Clone, Copy)]
pub enum Naming {
    Empty,
    Good,
    Bad,
}

/// What of a target has come: whether it is a name, and the letters of `xml` as written, and in any case.
#[derive(Clone, Copy)]
pub struct Written {
    pub naming: Naming,
    pub exact: Letters,
    pub folded: Letters,
}

/// The target of an instruction: it may go on, or has ended, with a fault or none.
#[derive(Clone, Copy)]
pub enum Target {
    Going(Written),
    Ended(Option<XmlKind>),
}

/// The inside of an open instruction: its target, and what it was before the last byte, which is a `?` or not.
#[derive(Clone, Copy)]
pub struct InInstruction {
    pub before: Target,
    pub target: Target,
    pub is_asked: bool,
}

fn met(letter: char, c: char, next: Letters) -> Letters
    ensures { result ≡ spec.met letter c next }
{
    if c == letter { next } else { Letters::Other }
}

fn letters_behind(letters: Letters, c: char) -> Letters
    ensures { result ≡ spec.letters_behind letters c }
{
    match letters {
        Letters::Zero => met('x', c, Letters::One),
        Letters::One => met('m', c, Letters::Two),
        Letters::Two => met('l', c, Letters::Three),
        Letters::Three | Letters::Other => Letters::Other,
    }
}

fn are_three(letters: Letters) -> bool
    ensures { result ≡ spec.are_three letters }
{
    match letters {
        Letters::Three => true,
        _ => false,
    }
}

fn named_if(good: bool) -> Naming
    ensures { result ≡ spec.named_if good }
{
    if good { Naming::Good } else { Naming::Bad }
}

fn naming_behind(naming: Naming, c: char) -> Naming
    ensures { result ≡ spec.naming_behind naming c }
{
    match naming {
        Naming::Empty => named_if(is_name_start(c)),
        Naming::Good => named_if(is_name_char(c)),
        Naming::Bad => Naming::Bad,
    }
}

fn is_good(naming: Naming) -> bool
    ensures { result ≡ spec.is_good naming }
{
    match naming {
        Naming::Good => true,
        _ => false,
    }
}

impl Written {
    /// The target with a character more.
    fn behind(self, c: char) -> Written
        ensures { result ≡ spec.written_behind self c }
    {
        Written {
            naming: naming_behind(self.naming, c),
            exact: letters_behind(self.exact, c),
            folded: letters_behind(self.folded, c.to_ascii_lowercase()),
        }
    }

    /// Whether it may be a target: a name, but `xml` in no case.
    fn is_target(self) -> bool
        ensures { result ≡ (spec.is_good self.naming && not (spec.are_three self.folded)) }
    {
        is_good(self.naming) && !are_three(self.folded)
    }

    /// The fault of a target that ends, by whether nothing or white space is behind it.
    fn fault(self, right: bool) -> Option<XmlKind>
        ensures { result ≡ spec.target_fault self right }
    {
        if are_three(self.exact) {
            Some(XmlKind::BadDeclaration)
        } else if self.is_target() && right {
            None
        } else {
            Some(XmlKind::BadMarkup)
        }
    }
}

impl Target {
    fn behind(self, c: char) -> Target
        ensures { result ≡ spec.target_behind self c }
    {
        match self {
            Target::Going(written) if is_target_char(c) => Target::Going(written.behind(c)),
            Target::Going(written) => Target::Ended(written.fault(is_white_space(c))),
            Target::Ended(fault) => Target::Ended(fault),
        }
    }

    /// The target behind a byte, by the character that it ends if any.
    fn with(self, c: Option<char>) -> Target
        ensures { result ≡ spec.target_with self c }
    {
        match c {
            Some(c) => self.behind(c),
            None => self,
        }
    }

    /// The fault of a target behind which the instruction ends.
    fn fault(self) -> Option<XmlKind>
        ensures { result ≡ spec.fault_of_target self }
    {
        match self {
            Target::Going(written) => written.fault(true),
            Target::Ended(fault) => fault,
        }
    }
}

impl InInstruction {
    /// Nothing has come yet.
    pub fn new() -> InInstruction
        ensures { result ≡ spec.begun }
    {
        let target = Target::Going(Written {
            naming: Naming::Empty,
            exact: Letters::Zero,
            folded: Letters::Zero,
        });
        InInstruction {
            before: target,
            target,
            is_asked: false,
        }
    }

    /// Whether the byte ends the instruction.
    pub fn is_ended_by(self, byte: u8) -> bool
        ensures { result ≡ spec.is_ended_by self byte }
    {
        self.is_asked && byte == b'>'
    }

    /// The same with a byte that doesn't end the instruction, and the Char that the byte ends if any.
    pub fn behind(self, byte: u8, c: Option<char>) -> InInstruction
        ensures { result ≡ spec.instruction_behind self byte c }
    {
        InInstruction {
            before: self.target,
            target: self.target.with(c),
            is_asked: byte == b'?',
        }
    }

    /// The fault of what stands before the `?` at the end, where all are Chars.
    pub fn own_fault(self) -> Option<XmlKind>
        ensures { result ≡ spec.own_fault self }
    {
        self.before.fault()
    }
}
