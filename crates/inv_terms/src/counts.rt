//! How many occurrences of groups stand right in an invoice.
ghost use Rattle.std.specs.Prelude.{◌≡◌, ℕ, ◌<◌, max, get_or, length};
ghost use Rattle.term_table.specs.declared.groups.Group.{Group};
ghost use Rattle.term_table.specs.Groups.{number_of};
ghost use Rattle.inv_terms.specs.Listing.{index_in};
ghost use Rattle.inv_terms.specs.Counts as spec;

use crate::entries::Entry;
use term_table::{Group, Slot};

/// Groups have numbers below this.
const GROUPS: usize = 104;

/// How many occurrences each group has right in an invoice, by the number of the group.
#[derive(Drop)]
pub struct Counts {
    pub numbers: [u32; GROUPS],
}

impl Counts {
    /// Of all groups the number of the last occurrence, 0 where there is none. It goes over the entries once.
    pub fn among(entries: &[Entry]) -> Counts
        ensures counted { spec.AreCounted result entries.now }
    {
        let mut numbers = [0u32; GROUPS];
        'entries: for e in entries {
            note(&mut numbers, e.context.outer);
        }
        Counts { numbers }
    }

    /// That of one group.
    pub fn last(&self, group: Group) -> u32
        ensures { result ≡ spec.last_of self.now group }
    {
        self.numbers[group.number() as usize]
    }
}

fn note(numbers: &mut [u32; GROUPS], slot: Option<Slot>)
    ensures { (group : Group) → get_or numbers.new (number_of group) 0 ≡ max (get_or numbers.old (number_of group) 0) (index_in group slot) }
{
    match slot {
        Some(slot) => {
            let at = slot.group.number() as usize;
            numbers[at] = numbers[at].max(slot.index);
        }
        None => {}
    }
}
