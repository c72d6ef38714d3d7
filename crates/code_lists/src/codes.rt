ghost use Rattle.std.specs.Prelude.{◌≡◌, [], IfOk, OnOk, chars, fold, map, length};
ghost use Rattle.std.specs.Char.{is_ascii_graphic};
ghost use Rattle.std.specs.List.{list_all};
ghost use Rattle.code_lists.specs.Codes as spec;

use indexmap::IndexSet;
use std::alloc::{AllocError, Global};
use std::marker::Model;

/// Whether the text may be a code: 1 to 128 characters that ASCII prints, none of them a space.
pub fn is_code(text: &str) -> bool
    ensures { result ≡ spec.is_code (chars text.now) }
{
    let count = char_count(text);
    1 <= count && count <= 128 && is_printed(text)
}

fn char_count(text: &str) -> usize
    ensures { result ≡ length (chars text.now) }
{
    text.chars().count()
}

fn is_printed(text: &str) -> bool
    ensures { result ≡ list_all is_ascii_graphic (chars text.now) }
{
    text.chars().all(|c| c.is_ascii_graphic())
}

/// The codes of a list, each once, in the order in which they were first given.
pub struct Codes {
    texts: IndexSet<String>,
}

impl Drop for Codes {
    fn drop(self) {
        let Codes { texts } = self;
        drop(texts);
    }
}

impl Model for Codes {
    ghost use Rattle.std.specs.Prelude.{ℕ, List, map, chars, string_bytes};

    ghost Value = { List (List ℕ) };

    ghost view = { λ codes. map (λ text. chars (string_bytes text)) codes.texts.keys };
}

impl Codes {
    /// No codes.
    pub fn new(alloc: Global) -> Codes
        ensures { result ≡ [] }
    {
        Codes {
            texts: IndexSet::new(alloc),
        }
    }

    /// The texts as codes.
    pub fn of(alloc: Global, texts: &[&str]) -> Result<Codes, AllocError>
        ensures { IfOk result (λ codes. codes ≡ fold spec.with_code [] (map (λ text. chars text.now) texts.now)) }
    {
        let mut codes = Codes::new(alloc);
        'texts: for text in texts {
            codes.add(alloc, text)?;
        }
        Ok(codes)
    }

    /// Takes a code in, behind the others where it is new.
    pub fn add(&mut self, alloc: Global, code: &str) -> Result<(), AllocError>
        ensures { OnOk result (self.new ≡ spec.with_code self.old (chars code.now)) }
    {
        self.texts.insert(String::from_str(alloc, code)?)?;
        Ok(())
    }

    /// Whether the code is among them.
    pub fn has(&self, code: &str) -> bool
        ensures { result ≡ spec.has_code self.now (chars code.now) }
    {
        self.texts.contains(code)
    }
}
