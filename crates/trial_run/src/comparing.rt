//! Whether two invoices say the same.
ghost use Rattle.std.specs.Prelude.{◌≡◌};
ghost use Rattle.trial_run.specs.Comparing as spec;

use inv_terms::Entry;

#[tactic(auto, unfolding(crate::specs::Comparing::same_entry))]
fn is_same_entry(a: &Entry, b: &Entry) -> bool
    ensures { result ≡ spec.same_entry a.now b.now }
{
    a.term.is_same(b.term) && a.context.is_same(b.context) && a.value.is_same(&b.value)
}

/// Whether both have the same entries, one after another.
pub(crate) fn are_same_entries(some: &[Entry], others: &[Entry]) -> bool
    ensures { result ≡ spec.same_entries some.now others.now }
{
    let mut rest = others;
    'entries: for e in some {
        match rest.split_first() {
            None => return false,
            Some((f, behind)) => {
                if !is_same_entry(e, f) {
                    return false;
                }
                rest = behind;
            }
        }
    }
    rest.is_empty()
}
