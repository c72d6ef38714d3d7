//! What a text in memory says as a rule file, with what is active of it.
ghost use Rattle.std.specs.Prelude.{◌≡◌, false, IfOk, OnOk, option_map, Some, None};
ghost use Rattle.node_arena.specs.Moves.{tree_nodes};
ghost use Rattle.schematron_compile.specs.Answers.{is_memory};
ghost use Rattle.schematron_rules.specs.Seen.{seen_rules};
ghost use Rattle.held_rules.specs.Texts.{nodes_in, rules_in, by_default, ready_in, found_by, seen_ready, IsReady, AreReady};

use crate::documents::document_in;
use bumpalo::Bump;
use inv_base::Steps;
use node_arena::Doc;
use schematron_compile::{Active, PhaseFault, RuleFault, Rules, compile};
use schematron_findings::Findings;
use schematron_run::judge;
use std::alloc::{AllocError, Global};
use std::sync::ledger::Ledger;

/// The name under which a rule file says what is active by default.
const DEFAULT_PHASE: &str = "#DEFAULT";

/// Rules with what is active of them where no phase is asked for.
pub struct Ready {
    rules: Rules,
    active: Active,
}

impl Drop for Ready {
    fn drop(self) {
        let Ready { rules, active } = self;
        drop(rules);
        drop(active);
    }
}

impl Ready {
    /// What they find in a document, in the order of judging: its texts are lent from them. The judging takes its steps.
    pub fn find<L: Ledger>(
        &self,
        alloc: Global,
        doc: &Doc<'_>,
        steps: &mut Steps<L>,
    ) -> Result<Findings<'_>, AllocError>
        requires { IsReady self.now }
        ensures { IfOk result (λ found. found ≡ found_by (seen_ready self.now) (tree_nodes doc.now)) }
    {
        judge(alloc, &self.rules, &self.active, doc, steps)
    }
}

/// What a text says as a rule file, with what is active by default; nothing where it is refused, or where nothing is active by
/// default.
pub fn ready_rules(alloc: Global, text: &[u8]) -> Result<Option<Ready>, AllocError>
    ensures said { IfOk result (λ ready. option_map seen_ready ready ≡ ready_in text.now) }
    ensures ready { IfOk result (λ ready. AreReady ready) }
{
    let bump = Bump::new(alloc);
    let doc = document_in(alloc, &bump, text)?;
    let rules = rules_in(alloc, &doc);
    drop(doc);
    match rules {
        Ok(Some(rules)) => by_default(alloc, rules),
        Ok(None) => Ok(None),
        Err(error) => Err(error),
    }
}

/// What the rule file of a document says; nothing where it is refused.
fn rules_in(alloc: Global, doc: &Option<Doc<'_>>) -> Result<Option<Rules>, AllocError>
    ensures { IfOk result (λ rules. option_map seen_rules rules ≡ rules_in (option_map tree_nodes doc.now)) }
{
    match doc {
        Some(doc) => rules_of(alloc, doc),
        None => Ok(None),
    }
}

fn rules_of(alloc: Global, doc: &Doc<'_>) -> Result<Option<Rules>, AllocError>
    ensures { IfOk result (λ rules. option_map seen_rules rules ≡ rules_in (Some (tree_nodes doc.now))) }
{
    match compile(alloc, doc) {
        Ok(rules) => Ok(Some(rules)),
        Err(fault) => no_rules(&fault),
    }
}

/// Nothing, where a rule file is refused.
fn no_rules(fault: &RuleFault) -> Result<Option<Rules>, AllocError>
    ensures so { IfOk result (λ rules. option_map seen_rules rules ≡ None) }
    ensures refused { OnOk result (is_memory fault.now.kind ≡ false) }
{
    if fault.is_memory() {
        return Err(AllocError);
    }
    Ok(None)
}

/// Rules with what is active of them by default; nothing where nothing is.
fn by_default(alloc: Global, rules: Rules) -> Result<Option<Ready>, AllocError>
    ensures said { IfOk result (λ ready. option_map seen_ready ready ≡ by_default (Some (seen_rules rules))) }
    ensures ready { IfOk result (λ ready. AreReady ready) }
{
    match rules.phase(alloc, DEFAULT_PHASE) {
        Ok(active) => Ok(Some(Ready { rules, active })),
        Err(PhaseFault::NoPhase) => {
            drop(rules);
            Ok(None)
        }
        Err(PhaseFault::Memory) => {
            drop(rules);
            Err(AllocError)
        }
    }
}
