//! The judging of the trial.
ghost use Rattle.std.specs.Prelude.{◌≡◌, IfOk, option_map};
ghost use Rattle.node_arena.specs.Moves.{tree_nodes};
ghost use Rattle.svrl_report.specs.Plain.{tally_of};
ghost use Rattle.held_rules.specs.Texts.{seen_ready, AreReady};
ghost use Rattle.trial_run.specs.Memory.{AreBuiltIn, terms_in, terms_read};
ghost use Rattle.trial_run.specs.Trials as spec;

use crate::reading::{Means, terms_in};
use crate::rule_file::rule_file;
use bumpalo::Bump;
use held_rules::{Ready, document_in, ready_rules};
use inv_base::Steps;
use inv_terms::Invoice;
use node_arena::Doc;
use std::alloc::{AllocError, Global};
use std::sync::ledger::Ledger;
use svrl_report::Tally;

/// What the built-in rule file says; nothing where it is refused.
pub(crate) fn trial_rules(alloc: Global) -> Result<Option<Ready>, AllocError>
    ensures rules { IfOk result (λ rules. option_map seen_ready rules ≡ spec.trial_rules) }
    ensures ready { IfOk result (λ rules. AreReady rules) }
{
    ready_rules(alloc, rule_file().as_bytes())
}

/// What bytes say as an invoice, and how many findings of each sort the built-in rule file has in them.
pub(crate) struct Seen {
    pub(crate) invoice: Invoice,
    pub(crate) tally: Tally,
}

impl Drop for Seen {
    fn drop(self) {
        let Seen { invoice, tally: _ } = self;
        drop(invoice);
    }
}

/// What is seen of bytes as a document. The judging takes its steps.
pub(crate) fn see<L: Ledger>(
    alloc: Global,
    bytes: &[u8],
    means: &Means,
    rules: &Option<Ready>,
    steps: &mut Steps<L>,
) -> Result<Seen, AllocError>
    requires means { AreBuiltIn means.now }
    requires rules { option_map seen_ready rules.now ≡ spec.trial_rules }
    requires ready { AreReady rules.now }
    ensures invoice { IfOk result (λ seen. seen.invoice ≡ terms_read bytes.now) }
    ensures tally { IfOk result (λ seen. seen.tally ≡ tally_of (spec.trial_findings bytes.now)) }
{
    let bump = Bump::new(alloc);
    let doc = document_in(alloc, &bump, bytes)?;
    let seen = seen_in(alloc, &doc, means, rules, steps);
    drop(doc);
    seen
}

/// What is seen of a document, if there is one.
fn seen_in<L: Ledger>(
    alloc: Global,
    doc: &Option<Doc<'_>>,
    means: &Means,
    rules: &Option<Ready>,
    steps: &mut Steps<L>,
) -> Result<Seen, AllocError>
    requires means { AreBuiltIn means.now }
    requires rules { option_map seen_ready rules.now ≡ spec.trial_rules }
    requires ready { AreReady rules.now }
    ensures invoice { IfOk result (λ seen. seen.invoice ≡ terms_in (option_map tree_nodes doc.now)) }
    ensures tally { IfOk result (λ seen. seen.tally ≡ tally_of (spec.found_in spec.trial_rules (option_map tree_nodes doc.now))) }
{
    let invoice = terms_in(alloc, doc, means)?;
    let tally = found_in(alloc, doc, rules, steps)?;
    Ok(Seen { invoice, tally })
}

/// How many findings of each sort there are in a document, if there is one.
fn found_in<L: Ledger>(
    alloc: Global,
    doc: &Option<Doc<'_>>,
    rules: &Option<Ready>,
    steps: &mut Steps<L>,
) -> Result<Tally, AllocError>
    requires rules { option_map seen_ready rules.now ≡ spec.trial_rules }
    requires ready { AreReady rules.now }
    ensures { IfOk result (λ tally. tally ≡ tally_of (spec.found_in spec.trial_rules (option_map tree_nodes doc.now))) }
{
    match doc {
        Some(doc) => found_by(alloc, doc, rules, steps),
        None => Ok(Tally::new()),
    }
}

/// How many findings of each sort the rules have in a document, if there are rules.
fn found_by<L: Ledger>(
    alloc: Global,
    doc: &Doc<'_>,
    rules: &Option<Ready>,
    steps: &mut Steps<L>,
) -> Result<Tally, AllocError>
    requires rules { option_map seen_ready rules.now ≡ spec.trial_rules }
    requires ready { AreReady rules.now }
    ensures { IfOk result (λ tally. tally ≡ tally_of (spec.found_by spec.trial_rules (tree_nodes doc.now))) }
{
    match rules {
        Some(rules) => {
            let found = rules.find(alloc, doc, steps)?;
            Ok(Tally::of(found.lines()))
        }
        None => Ok(Tally::new()),
    }
}
