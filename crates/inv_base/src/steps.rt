ghost use Rattle.std.specs.Prelude.{◌≡◌, ◌+◌, ◌<◌, min};
ghost use Rattle.inv_base.specs.Counts.{last_count};

use std::marker::Model;
use std::sync::ledger::{Blank, Book, Ledger, Share};

/// How many steps were taken. Contracts see the number itself, which a ledger keeps and no type bounds; at run
/// time there is a count of 64 bits that stops at its last value. The ledger takes no bytes.
///
/// A caller that counts nothing, or is the first to count, calls a function over `L: Ledger` with `Brand` for `L` and
/// hands it `Blank::new(1)`.
#[derive(Drop)]
pub struct Steps<L: Ledger> {
    count: u64,
    book: Book<L>,
    share: Share<L>,
}

impl<L: Ledger> Model for Steps<L> {
    ghost use Rattle.std.specs.Prelude.{◌≡◌, ℕ, ◌<◌, min};
    ghost use Rattle.inv_base.specs.Counts.{last_count};

    ghost Value = { ℕ };

    ghost view = { λ steps. steps.book.total };

    ghost invariant = { λ steps. (0 < steps.share.parts) × (steps.count ≡ min steps.book.total last_count) };
}

impl<L: Ledger> Steps<L> {
    /// No steps yet, on a ledger of their own.
    pub fn new(ledger: Blank) -> Steps<L>
        requires name { ledger.name ≡ L.name }
        requires parts { ledger.parts ≡ L.parts }
        requires some { 0 < ledger.parts }
        ensures { result ≡ 0 }
    {
        let (book, share) = ledger.open::<L>();
        Steps {
            count: 0,
            book,
            share,
        }
    }

    /// One step more.
    pub fn tick(&mut self)
        ensures { self.new ≡ self.old + 1 }
    {
        let Steps { count, book, share } = self;
        book.add(share, 1);
        *count = count.saturating_add(1);
    }

    /// The number of steps, or the greatest number of 64 bits where there were more.
    pub fn count(&self) -> u64
        ensures { result ≡ min self.now last_count }
    {
        self.count
    }
}
