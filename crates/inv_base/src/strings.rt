ghost use Rattle.std.specs.Prelude.{◌≡◌, ◌++◌, chars, string_bytes, IfOk};
ghost use Rattle.inv_base.specs.Strings.{characters};

use crate::txt::Txt;
use std::alloc::{AllocError, Global};
use std::marker::Model;

/// A text that is lent from where it stands, or one of its own.
#[derive(Drop)]
pub(crate) enum Held<'a> {
    Lent(&'a str),
    Own(String),
}

/// A text, lent or its own. Contracts see the list of its characters.
pub struct Str<'a> {
    held: Held<'a>,
}

impl Drop for Str<'_> {
    fn drop(self) {
        let Str { held } = self;
        drop(held);
    }
}

impl<'a> Model for Str<'a> {
    ghost use Rattle.std.specs.Prelude.{List, ℕ};

    ghost Value = { List ℕ };

    ghost use Rattle.inv_base.specs.Strings.{characters};

    ghost view = { λ s. characters s.held };
}

impl<'a> Str<'a> {
    /// A text that stands somewhere.
    pub fn lent(t: &'a str) -> Str<'a>
        ensures { result ≡ chars t.now }
    {
        Str {
            held: Held::Lent(t),
        }
    }

    /// A text that stands nowhere else.
    pub fn own(t: Txt) -> Str<'a>
        ensures { result ≡ t }
    {
        let Txt { text } = t;
        Str {
            held: Held::Own(text),
        }
    }

    /// A string that stands nowhere else, without a copy.
    pub fn made(t: String) -> Str<'a>
        ensures { result ≡ chars (string_bytes t) }
    {
        Str { held: Held::Own(t) }
    }

    /// The text itself.
    pub fn as_str(&self) -> &str
        ensures { chars result.now ≡ self.now }
    {
        match &self.held {
            Held::Lent(t) => *t,
            Held::Own(t) => t.as_str(),
        }
    }

    /// The same text once more: lent where it is lent, else a copy.
    pub fn copied(&self, alloc: Global) -> Result<Str<'a>, AllocError>
        ensures { IfOk result (λ t. t ≡ self.now) }
    {
        match &self.held {
            Held::Lent(t) => Ok(Str::lent(*t)),
            Held::Own(t) => Ok(Str::made(String::from_str(alloc, t.as_str())?)),
        }
    }

    /// The text with another behind it. It is lent where it was empty.
    pub fn followed_by(self, alloc: Global, text: &'a str) -> Result<Str<'a>, AllocError>
        ensures { IfOk result (λ all. all ≡ self.entry ++ chars text.now) }
    {
        let Str { held } = self;
        Ok(Str {
            held: joined(alloc, held, text)?,
        })
    }
}

/// A text with another behind it.
fn joined<'a>(alloc: Global, held: Held<'a>, text: &'a str) -> Result<Held<'a>, AllocError>
    ensures { IfOk result (λ all. characters all ≡ characters held.entry ++ chars text.entry.now) }
{
    match held {
        Held::Lent(before) => {
            if before.is_empty() {
                return Ok(Held::Lent(text));
            }
            let mut joined = String::from_str(alloc, before)?;
            joined.push_str(text)?;
            Ok(Held::Own(joined))
        }
        Held::Own(before) => {
            let mut joined = before;
            joined.push_str(text)?;
            Ok(Held::Own(joined))
        }
    }
}
