//! What can still matter of an open comment, but for its characters.
ghost use Rattle.std.specs.Prelude.{◌≡◌};
ghost use Rattle.xml_tokens.specs.Comments as spec;

use crate::kind::XmlKind;

/// How many hyphens stand at the end, at most two.
#[derive(Clone, Copy)]
pub enum Hyphens {
    Zero,
    One,
    Two,
}

/// The inside of an open comment: the hyphens at its end, and whether `--` stands in it.
#[derive(Clone, Copy)]
pub struct InComment {
    pub hyphens: Hyphens,
    pub is_faulty: bool,
}

fn one_more(hyphens: Hyphens) -> Hyphens
    ensures { result ≡ spec.one_more hyphens }
{
    match hyphens {
        Hyphens::Zero => Hyphens::One,
        Hyphens::One => Hyphens::Two,
        Hyphens::Two => Hyphens::Two,
    }
}

fn hyphens_behind(hyphens: Hyphens, byte: u8) -> Hyphens
    ensures { result ≡ spec.hyphens_behind hyphens byte }
{
    if byte == b'-' {
        one_more(hyphens)
    } else {
        Hyphens::Zero
    }
}

fn are_two(hyphens: Hyphens) -> bool
    ensures { result ≡ spec.are_two hyphens }
{
    match hyphens {
        Hyphens::Zero | Hyphens::One => false,
        Hyphens::Two => true,
    }
}

impl InComment {
    /// Nothing has come yet.
    pub fn new() -> InComment
        ensures { result ≡ spec.begun }
    {
        InComment {
            hyphens: Hyphens::Zero,
            is_faulty: false,
        }
    }

    /// Whether the byte ends the comment.
    pub fn is_ended_by(self, byte: u8) -> bool
        ensures { result ≡ spec.is_ended_by self byte }
    {
        are_two(self.hyphens) && byte == b'>'
    }

    /// The same with a byte that doesn't end the comment.
    pub fn behind(self, byte: u8) -> InComment
        ensures { result ≡ spec.comment_behind self byte }
    {
        InComment {
            hyphens: hyphens_behind(self.hyphens, byte),
            is_faulty: self.is_faulty || are_two(self.hyphens),
        }
    }

    /// The fault of what stands inside, where all are Chars.
    pub fn own_fault(self) -> Option<XmlKind>
        ensures { result ≡ spec.own_fault self }
    {
        if self.is_faulty {
            Some(XmlKind::BadMarkup)
        } else {
            None
        }
    }
}
