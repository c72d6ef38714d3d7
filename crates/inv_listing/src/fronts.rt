ghost use Rattle.std.specs.Prelude.{◌≡◌, ◌≤◌, [], ◌∷◌, ◌++◌, chars, encode_utf8_all};
ghost use Rattle.arrayvec.specs.ArrayVec.{array_vec_len};
ghost use Rattle.inv_base.specs.Text.{quoted};
ghost use Rattle.short_lines.specs.Composing.{IsPlain};
ghost use Rattle.inv_listing.specs.Listing.{context_text, term_text};
ghost use Rattle.inv_listing.specs.Composing.{BeginsWithContext, IsContextAlone};

use crate::names::{put_context, put_term};
use inv_terms::Entry;
use short_lines::{Short, put, put_quoted_line};
use term_table::{Context, ROOT};

/// What stands in front of an entry's value: its context and its term, with a space behind each. The text of the context
/// stays, so that it is made once for entries that follow one another in one context. It has 40 bytes at most, a term 12.
#[derive(Drop)]
pub(crate) struct Front {
    pub(crate) text: Short,
    context: Context,
    /// How many bytes of the text are that of the context.
    context_len: usize,
}

impl Front {
    /// The front of no entry, at the root.
    pub(crate) fn new() -> Front
        ensures { BeginsWithContext result }
    {
        Front {
            text: Short::new(),
            context: ROOT,
            context_len: 0,
        }
    }

    /// Becomes the front of an entry.
    pub(crate) fn turn_to(&mut self, e: &Entry)
        requires { BeginsWithContext self.old }
        ensures begins { BeginsWithContext self.new }
        ensures text { self.new.text.items ≡ context_text e.now.context ++ (term_text e.now.term ++ 0x20 ∷ []) }
        ensures room { array_vec_len self.new.text ≤ 53 }
    {
        self.turn_to_context(e.context);
        put_term(&mut self.text, e.term);
        put(&mut self.text, b" ");
    }

    /// Ends the line by a value that stands for itself, between quotes.
    pub(crate) fn end_by(&mut self, value: &str)
        requires begins { BeginsWithContext self.old }
        requires plain { IsPlain value.now }
        requires room { array_vec_len self.old.text ≤ 53 }
        ensures begins { BeginsWithContext self.new }
        ensures text { self.new.text.items ≡ self.old.text.items ++ (encode_utf8_all (quoted (chars value.now)) ++ 0xA ∷ []) }
    {
        put_quoted_line(&mut self.text, value);
    }

    /// Becomes the text of a context alone, which is made where it's another than before.
    fn turn_to_context(&mut self, context: Context)
        requires { BeginsWithContext self.old }
        ensures { IsContextAlone context self.new }
    {
        if self.context.is_same(context) {
            self.text.truncate(self.context_len);
            return;
        }
        self.text.clear();
        put_context(&mut self.text, context);
        self.context = context;
        self.context_len = self.text.len();
    }
}
