ghost use Rattle.std.specs.Prelude.{◌≡◌, ◌+◌, ◌≤◌, chars, encode_utf8_all};
ghost use Rattle.inv_base.specs.Printing.{Printed};
ghost use Rattle.json_text.specs.declared.state.TheConstants.{DEEPEST};
ghost use Rattle.json_text.specs.Layout.{document};
ghost use Rattle.json_text.specs.Made.{Wrote};
ghost use Rattle.validation_report.specs.Held.{held_contents, held_numbers};
ghost use Rattle.validation_json.specs.ValidationJson.{counts_member, validation_json};

use crate::elements::{put_elements, put_unread};
use crate::findings::{FaultForm, RuleForm, put_findings};
use findings_json::put_tally;
use inv_base::Sink;
use json_text::{Container, JsonPen};
use schematron_findings::Line;
use svrl_report::Tally;
use validation_report::{Parts, Spots, Validation};

/// Prints what a validation tells as JSON text: one object with the name of the document's file, an array of each sort of what is
/// told, and how many there are of each. It takes no memory. Answers whether a write failed.
pub fn print_validation<K: Sink>(file: &str, validation: &Validation<'_>, out: &mut K) -> bool
    ensures { Printed result (encode_utf8_all (document (validation_json (chars file.now) validation.now.contents))) (K.view out.old) (K.view out.new) }
{
    print_parts(file, validation.parts(), out)
}

/// The same of what the validation keeps.
fn print_parts<K: Sink>(file: &str, told: Parts<'_, '_>, out: &mut K) -> bool
    ensures { Printed result (encode_utf8_all (document (validation_json (chars file.now)
        (held_contents told.entry.reading.now told.entry.rules.now told.entry.spots.now)))) (K.view out.old) (K.view out.new) }
{
    let mut pen = JsonPen::new();
    pen.begin_item(out, Container::Object);
    pen.text_member(out, "file", file);
    put_findings::<FaultForm, K>("faults", told.reading, &told.spots.faults, &mut pen, out);
    put_elements("passed_over", &told.spots.passed, &mut pen, out);
    put_unread(&told.spots.unread, &mut pen, out);
    put_elements("misplaced", &told.spots.misplaced, &mut pen, out);
    put_findings::<RuleForm, K>("findings", told.rules, &told.spots.findings, &mut pen, out);
    put_counts(told.spots, told.rules, &mut pen, out);
    pen.end(out, Container::Object);
    pen.finish(out)
}

/// Writes how many there are of each sort.
fn put_counts<K: Sink>(spots: &Spots, rules: &[Line<'_>], pen: &mut JsonPen, out: &mut K)
    requires { pen.old.state.depth + 1 ≤ DEEPEST }
    ensures { Wrote (counts_member (held_numbers spots.now rules.now)) pen.old pen.new (K.view out.old) (K.view out.new) }
{
    pen.begin_member(out, "counts", Container::Object);
    pen.number_member(out, "faults", spots.faults.as_slice().len() as u64);
    pen.number_member(out, "passed_over", spots.passed.as_slice().len() as u64);
    pen.number_member(out, "unread", spots.unread.as_slice().len() as u64);
    pen.number_member(out, "misplaced", spots.misplaced.as_slice().len() as u64);
    put_tally(Tally::of(rules), pen, out);
    pen.end(out, Container::Object);
}
