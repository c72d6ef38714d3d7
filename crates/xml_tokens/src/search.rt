ghost use Rattle.std.specs.Prelude.{◌≡◌, ◌==◌, ◌-◌, None};
ghost use Rattle.xml_tokens.specs.Searching.{fresh};

use std::marker::Model;

/// How far the unfinished token at the front of the bytes was searched for its end in vain, so that no byte is searched
/// twice.
#[derive(Drop)]
pub struct Search {
    searched: usize,
    quote: Option<u8>,
}

impl Model for Search {
    ghost use Rattle.xml_tokens.specs.Searching.{Searched};

    ghost Value = { Searched };

    ghost view = { λ search. record { searched = search.searched; quote = search.quote } };
}

impl Search {
    /// Nothing was searched.
    pub fn new() -> Search
        ensures { result ≡ fresh }
    {
        Search {
            searched: 0,
            quote: None,
        }
    }

    /// Whether nothing was searched.
    pub fn is_fresh(&self) -> bool
        ensures { result ≡ (self.now.searched == 0) }
    {
        self.searched == 0
    }

    /// How many bytes behind so many at the front were searched.
    pub(crate) fn searched_behind(&self, opening: usize) -> usize
        ensures { result ≡ self.now.searched - opening }
    {
        self.searched.saturating_sub(opening)
    }

    /// The quote that is open behind what was searched.
    pub(crate) fn open_quote(&self) -> Option<u8>
        ensures { result ≡ self.now.quote }
    {
        self.quote
    }

    /// So many bytes were searched, behind which this quote is open.
    pub(crate) fn reach(&mut self, searched: usize, quote: Option<u8>)
        ensures { self.new ≡ record { searched = searched; quote = quote } }
    {
        self.searched = searched;
        self.quote = quote;
    }
}
