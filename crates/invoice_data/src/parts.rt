//! The values that stand beside one another, each with those inside it.
ghost use Rattle.std.specs.Prelude.{◌≡◌, ◌≤◌, ◌∷◌, length};
ghost use Rattle.invoice_data.specs.Parts.{part, parts};

use json_reading::Item;

/// What stands inside an item, and what follows it, of the items behind it.
pub(crate) fn split<'t>(item: &Item, behind: &'t [Item]) -> (&'t [Item], &'t [Item])
    ensures parts { parts (item.now ∷ behind.now) ≡ part item.now result.0.now ∷ parts result.1.now }
    ensures shorter { length result.1.now ≤ length behind.now }
{
    behind.split_at(item.inside.min(behind.len()))
}
