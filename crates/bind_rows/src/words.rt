ghost use Rattle.std.specs.Prelude.{◌≡◌, IfOk};
ghost use Rattle.std.specs.Str.{chars};

use std::alloc::{AllocError, Global};
use std::borrow::CowStr;
use std::marker::Model;

/// A text that stands in the program, or one of its own. Contracts see the list of its characters.
#[derive(Drop)]
pub struct Word {
    text: CowStr<'static, Global>,
}

impl Model for Word {
    ghost use Rattle.std.specs.Prelude.{List, ℕ};
    ghost use Rattle.std.specs.Cow.{cow_str_bytes};
    ghost use Rattle.std.specs.Str.{chars};

    ghost Value = { List ℕ };

    ghost view = { λ word. chars (cow_str_bytes word.text) };
}

impl Word {
    /// A text of the program, which takes no memory.
    pub fn fixed(text: &'static str) -> Word
        ensures { result ≡ chars text.now }
    {
        Word {
            text: CowStr::Borrowed(text),
        }
    }

    /// A copy of the text.
    pub fn of(alloc: Global, text: &str) -> Result<Word, AllocError>
        ensures { IfOk result (λ word. word ≡ chars text.now) }
    {
        Ok(Word {
            text: CowStr::Owned(String::from_str(alloc, text)?),
        })
    }

    /// The text itself.
    pub fn as_str(&self) -> &str
        ensures { chars result.now ≡ self.now }
    {
        self.text.as_str()
    }

    /// The same text once more. One of the program takes no memory.
    pub fn try_clone(&self) -> Result<Word, AllocError>
        ensures { IfOk result (λ word. word ≡ self.now) }
    {
        let text = self.text.clone()?;
        Ok(Word { text })
    }
}
