ghost use Rattle.std.specs.Prelude.{◌≡◌, ◌||◌, map};
ghost use Rattle.page_tables.specs.Tables.{part_lent};
ghost use Rattle.inv_base.specs.Printing.{Prints};
ghost use Rattle.page_values.specs.Parts as spec;
ghost use Rattle.page_values.specs.Seen.{IsPlace, seen};

use crate::places::{Place, has_value, value_at};
use crate::values::put_shown;
use inv_base::{Printer, Sink};
use page_tables::Part;

/// Whether any of the parts stands in a place.
pub fn any_stands(place: &Place<'_>, parts: &[Part]) -> bool
    requires { IsPlace place.now }
    ensures { result ≡ spec.any_stands (seen place.now) (map part_lent parts.now) }
{
    'parts: for part in parts {
        if has_value(place, part.1) {
            return true;
        }
    }
    false
}

/// Writes the parts that stand in a place, with spaces between.
pub fn put_parts<K: Sink>(place: &Place<'_>, parts: &[Part], printer: &mut Printer, out: &mut K)
    requires { IsPlace place.now }
    ensures { Prints (spec.parts_text (seen place.now) (map part_lent parts.now)) printer.old.failed printer.new.failed (K.view out.old) (K.view out.new) }
{
    let mut behind = false;
    'parts: for part in parts {
        behind = put_part(behind, place, part, printer, out);
    }
}

/// Writes a part, where it stands; answers whether it or one before it does.
fn put_part<K: Sink>(
    behind: bool,
    place: &Place<'_>,
    part: &Part,
    printer: &mut Printer,
    out: &mut K,
) -> bool
    requires { IsPlace place.now }
    ensures prints { Prints (spec.part_text behind (seen place.now) (part_lent part.now)) printer.old.failed printer.new.failed (K.view out.old)
        (K.view out.new) }
    ensures stands { result ≡ (behind || spec.stands (seen place.now) (part_lent part.now)) }
{
    match value_at(place, part.1) {
        None => behind,
        Some(value) => {
            put_space(behind, printer, out);
            put_words(part.0, printer, out);
            put_shown(place, part.1, part.2, value, printer, out);
            true
        }
    }
}

fn put_space<K: Sink>(behind: bool, printer: &mut Printer, out: &mut K)
    ensures { Prints (spec.space_behind behind) printer.old.failed printer.new.failed (K.view out.old) (K.view out.new) }
{
    if behind {
        printer.put(out, b" ");
    }
}

fn put_words<K: Sink>(words: &str, printer: &mut Printer, out: &mut K)
    ensures { Prints (spec.words_before words.now) printer.old.failed printer.new.failed (K.view out.old) (K.view out.new) }
{
    if words.is_empty() {
        return;
    }
    printer.put(out, words.as_bytes());
    printer.put(out, b" ");
}
