ghost use Rattle.std.specs.Prelude.{◌≡◌, ◌<◌, ℕ, nat_lt, List, true, false};
ghost use Rattle.xml_write.specs.Sizes.{most_measured, longest_measured, stopped, tag_stopped};
ghost use Rattle.std.specs.List.{list_all};
ghost use Rattle.inv_terms.specs.declared.entries.Entry.{Entry};
ghost use Rattle.bind_rows.specs.declared.rows.Row.{Row};
ghost use Rattle.bind_table.specs.Laid.{is_writable};
ghost use Rattle.bind_write.specs.Documents.{HasSizes};
ghost use Rattle.bind_write.specs.Sources.{has_plain_attribute};
ghost use Rattle.bind_carrying.specs.Carrying as spec;

use crate::conditions::{Condition, first_at};
use crate::placing::first_unplaced;
use crate::tables::document_type_of;
use bind_meaning::DocumentType;
use bind_table::Binding;
use bind_write::measure;
use inv_terms::Invoice;
use term_table::Term;
use xml_state::DOCUMENT_LIMITS;
use xml_tokens::GREATEST_TAG;
use xml_write::Gauge;

/// Why a table can't carry an invoice.
#[derive(Clone, Copy, PartialEq, Eq)]
pub struct NotCarried {
    /// The least condition that fails, from 1 to 9.
    pub condition: u8,
    /// The term of the first entry at which it fails. None at condition 8, which is of the whole document.
    pub term: Option<Term>,
}

/// How many bytes a tag may have, in the numbers of a gauge.
const LONGEST_TAG: u64 = GREATEST_TAG as u64;

/// How many nodes a document may have, likewise.
const MOST_NODES: u64 = DOCUMENT_LIMITS.nodes as u64;

const CONDITIONS: [Condition; 7] = [
    Condition::Part,
    Condition::Creditor,
    Condition::Placeholder,
    Condition::Note,
    Condition::Code,
    Condition::Means,
    Condition::Currency,
];

/// The least condition on entries that fails.
fn first_failing(conditions: &[Condition], table: DocumentType, i: &Invoice) -> Option<NotCarried>
    ensures { result ≡ spec.first_failing conditions.now table i.now }
{
    'conditions: for condition in conditions {
        match first_at(*condition, table, i) {
            None => {}
            Some(term) => {
                return Some(NotCarried {
                    condition: condition.number(),
                    term: Some(term),
                });
            }
        }
    }
    None
}

/// Whether a table can carry an invoice. Else the least condition that fails, with the term of the first entry at which it does; condition
/// 8, on the size of the whole document, has no term. It takes no memory.
pub fn carries(i: &Invoice, b: &Binding) -> Result<(), NotCarried>
    requires laid { is_writable b.now ≡ true }
    requires notes { list_all has_plain_attribute b.now ≡ true }
    ensures { result ≡ spec.carrying b.now i.now }
{
    match first_failing(&CONDITIONS, document_type_of(b), i) {
        Some(fault) => Err(fault),
        None => rest_carried(&measure(i, b), first_unplaced(i, b.rows())),
    }
}

/// Whether a document of these sizes keeps the limits on documents that are read, and else no entry is unplaced.
fn rest_carried(sizes: &Gauge, unplaced: Option<NotCarried>) -> Result<(), NotCarried>
    ensures { (rows : List Row) (es : List Entry) → HasSizes rows es sizes.now
        → result ≡ spec.rest_carried (spec.is_too_large rows es) unplaced }
{
    if passes(sizes.bytes, DOCUMENT_LIMITS.bytes)
        || tag_passes(sizes.longest_tag, LONGEST_TAG)
        || passes(sizes.nodes, MOST_NODES)
    {
        Err(NotCarried {
            condition: 8,
            term: None,
        })
    } else {
        all_placed(unplaced)
    }
}

fn all_placed(unplaced: Option<NotCarried>) -> Result<(), NotCarried>
    ensures { result ≡ spec.rest_carried false unplaced }
{
    match unplaced {
        Some(fault) => Err(fault),
        None => Ok(()),
    }
}

/// Whether a number of bytes or of nodes passes a limit that is below where such numbers stop.
fn passes(number: u64, limit: u64) -> bool
    requires { limit < most_measured }
    ensures { (n : ℕ) → number ≡ stopped n → result ≡ nat_lt limit n }
{
    limit < number
}

/// The same of the bytes of a tag.
fn tag_passes(number: u64, limit: u64) -> bool
    requires { limit < longest_measured }
    ensures { (n : ℕ) → number ≡ tag_stopped n → result ≡ nat_lt limit n }
{
    limit < number
}
