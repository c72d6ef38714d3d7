ghost use Rattle.std.specs.Prelude.{◌≡◌, IfOk};
ghost use Rattle.std.specs.Str.{bytes_eq, chars};

use std::alloc::{AllocError, Global};
use std::fmt;
use std::marker::Model;

/// A text of its own. Contracts see the list of its characters.
#[derive(Drop)]
pub struct Txt {
    pub(crate) text: String,
}

impl Model for Txt {
    ghost use Rattle.std.specs.Prelude.{List, ℕ, string_bytes};
    ghost use Rattle.std.specs.Str.{chars};

    ghost Value = { List ℕ };

    ghost view = { λ t. chars (string_bytes t.text) };
}

impl Txt {
    /// A copy of the text.
    pub fn of(alloc: Global, text: &str) -> Result<Txt, AllocError>
        ensures { IfOk result (λ t. t ≡ chars text.now) }
    {
        Ok(Txt {
            text: String::from_str(alloc, text)?,
        })
    }

    /// The text of these characters.
    pub fn from_characters(alloc: Global, characters: &[char]) -> Result<Txt, AllocError>
        ensures { IfOk result (λ t. t ≡ characters.now) }
    {
        let text: String = characters.iter().copied().collect(alloc)?;
        Ok(Txt { text })
    }

    /// The text itself.
    pub fn as_str(&self) -> &str
        ensures { chars result.now ≡ self.now }
    {
        self.text.as_str()
    }

    /// The same text once more.
    pub fn try_clone(&self) -> Result<Txt, AllocError>
        ensures { IfOk result (λ t. t ≡ self.now) }
    {
        let text = self.text.clone()?;
        Ok(Txt { text })
    }
}

/// Whether two texts have the same characters.
pub fn is_same_text(a: &str, b: &str) -> bool
    ensures { result ≡ bytes_eq (chars a.now) (chars b.now) }
{
    a == b
}

impl fmt::Debug for Txt {
    fn fmt<W: fmt::Write>(&self, f: &mut fmt::Formatter<W>) -> fmt::Result {
        write!(f, "{:?}", self.as_str())
    }
}
