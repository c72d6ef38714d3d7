//! The job that judges a document by rule files.
ghost use Rattle.std.specs.Prelude.{◌≡◌, ◌<◌, map, option_map, Ok, IfOk, IfErr, OnOk};
ghost use Rattle.std.specs.List.{list_any};
ghost use Rattle.inv_base.specs.Writing.{Writes};
ghost use Rattle.node_arena.specs.Moves.{tree_nodes};
ghost use Rattle.schematron_meaning.specs.Rules.{rules_of};
ghost use Rattle.schematron_rules.specs.Seen.{seen_rules};
ghost use Rattle.job_protocol.specs.Runs.{Runs, Continues, Fails};
ghost use Rattle.job_protocol.specs.Views.{text_of, texts_of};
ghost use Rattle.job_protocol.specs.declared.formats.ReportFormat.TheVariants as ReportFormat;
ghost use Rattle.document_jobs.specs.Checks as spec;
ghost use Rattle.document_jobs.specs.Checks.{named_of, chosen_of, AreChosen, IsRuleRefusal, IsRulesRefusal, IsPhaseRefusal, Reports, said_protocol, all_said};
ghost use Rattle.document_jobs.specs.Checks.{chosen_next, said_next, check_protocol};

use crate::refusals::{tell_at_home, tell_no_phase};
use bumpalo::Bump;
use findings_json::print_findings;
use inv_base::{Shelf, Sink, Steps};
use job_protocol::{ReportFormat, Status, load_document, load_library};
use node_arena::Doc;
use rule_library::Library;
use schematron_compile::{Active, PhaseFault, RuleFault, Rules, compile};
use schematron_findings::Level;
use schematron_run::{Finding, FindingKind, Findings, Line, judge};
use std::alloc::{AllocError, Global};
use std::marker::Brand;
use std::sync::ledger::{Blank, Ledger};
use svrl_report::{write_plain, write_svrl};
use xml_write::WriteFault;

/// The name under which a file says what is active by default.
const DEFAULT_PHASE: &str = "#DEFAULT";

/// What is asked of rule files and a document.
#[derive(Clone, Copy)]
pub struct Checking<'c, 'w> {
    /// How the report is to be written.
    pub format: ReportFormat,
    /// The phase whose patterns are judged, where one is named.
    pub phase: Option<&'w str>,
    pub rules: &'c [&'w str],
    /// The document.
    pub file: &'w str,
}

/// What a rule file says, with the file's name.
struct Named<'f> {
    name: &'f str,
    rules: Rules,
}

impl Drop for Named<'_> {
    fn drop(self) {
        let Named { name: _, rules } = self;
        drop(rules);
    }
}

/// Rules with what is active of them.
struct Chosen<'r> {
    rules: &'r Rules,
    active: Active,
}

impl Drop for Chosen<'_> {
    fn drop(self) {
        let Chosen { rules: _, active } = self;
        drop(active);
    }
}

/// Reports what the rule files find in a document. All refusals are settled before the first byte of the report.
pub fn check<S: Shelf, O: Sink, E: Sink>(
    alloc: Global,
    asked: &Checking<'_, '_>,
    shelf: &mut S,
    out: &mut O,
    err: &mut E,
) -> Status
    ensures { Runs (check_protocol asked.now.format (option_map text_of asked.now.phase) (texts_of asked.now.rules.now) asked.now.file.now)
        (record { shelf = S.view shelf.old; out = O.view out.old; err = E.view err.old })
        (record { shelf = S.view shelf.new; out = O.view out.new; err = E.view err.new }) result }
{
    check_by::<Brand, S, O, E>(alloc, asked, Blank::new(1), shelf, out, err)
}

/// The same by steps that nobody asks for.
fn check_by<L: Ledger, S: Shelf, O: Sink, E: Sink>(
    alloc: Global,
    asked: &Checking<'_, '_>,
    ledger: Blank,
    shelf: &mut S,
    out: &mut O,
    err: &mut E,
) -> Status
    requires name { ledger.name ≡ L.name }
    requires parts { ledger.parts ≡ L.parts }
    requires some { 0 < ledger.parts }
    ensures { Runs (check_protocol asked.now.format (option_map text_of asked.now.phase) (texts_of asked.now.rules.now) asked.now.file.now)
        (record { shelf = S.view shelf.old; out = O.view out.old; err = E.view err.old })
        (record { shelf = S.view shelf.new; out = O.view out.new; err = E.view err.new }) result }
{
    let mut steps = Steps::<L>::new(ledger);
    match load_all(alloc, asked.rules, shelf, err) {
        Ok(files) => {
            let status = check_with(alloc, asked, &files, shelf, out, err, &mut steps);
            drop(files);
            status
        }
        Err(status) => status,
    }
}

/// The same once all rule files are read.
fn check_with<L: Ledger, S: Shelf, O: Sink, E: Sink>(
    alloc: Global,
    asked: &Checking<'_, '_>,
    files: &[Named<'_>],
    shelf: &mut S,
    out: &mut O,
    err: &mut E,
    steps: &mut Steps<L>,
) -> Status
    ensures { Runs (said_next (spec.report_asked asked.now) (spec.phase_asked (option_map text_of asked.now.phase)) asked.now.file.now (map named_of files.now))
        (record { shelf = S.view shelf.old; out = O.view out.old; err = E.view err.old })
        (record { shelf = S.view shelf.new; out = O.view out.new; err = E.view err.new }) result }
{
    match choose(alloc, phase_asked(asked.phase), files, err) {
        Ok(chosen) => {
            let status = check_document(alloc, asked, &chosen, shelf, out, err, steps);
            drop(chosen);
            status
        }
        Err(status) => status,
    }
}

/// The same once it is known what is active in each.
fn check_document<L: Ledger, S: Shelf, O: Sink, E: Sink>(
    alloc: Global,
    asked: &Checking<'_, '_>,
    chosen: &[Chosen<'_>],
    shelf: &mut S,
    out: &mut O,
    err: &mut E,
    steps: &mut Steps<L>,
) -> Status
    requires { AreChosen (map chosen_of chosen.now) }
    ensures { Runs (chosen_next (spec.report_asked asked.now) asked.now.file.now (map chosen_of chosen.now))
        (record { shelf = S.view shelf.old; out = O.view out.old; err = E.view err.old })
        (record { shelf = S.view shelf.new; out = O.view out.new; err = E.view err.new }) result }
{
    let bump = Bump::new(alloc);
    let doc = match load_document(alloc, &bump, shelf, asked.file, err) {
        Ok(doc) => doc,
        Err(status) => return status,
    };
    report(alloc, asked, chosen, &doc, out, steps)
}

/// The phase that is asked for.
fn phase_asked(phase: Option<&str>) -> &str
    ensures { result.now ≡ spec.phase_asked (option_map text_of phase.entry) }
{
    match phase {
        Some(phase) => phase,
        None => DEFAULT_PHASE,
    }
}

/// What the rule files say, or the status with which the job ends.
fn load_all<'f, S: Shelf, E: Sink>(
    alloc: Global,
    names: &[&'f str],
    shelf: &mut S,
    err: &mut E,
) -> Result<Vec<Named<'f>>, Status>
    ensures goes_on { IfOk result (λ files. Continues (all_said (texts_of names.now)) (map named_of files.items)
        (S.view shelf.old) (S.view shelf.new) (E.view err.old) (E.view err.new)) }
    ensures fails { IfErr result (λ status. Fails (all_said (texts_of names.now)) status
        (S.view shelf.old) (S.view shelf.new) (E.view err.old) (E.view err.new)) }
{
    let mut files = Vec::new(alloc);
    'files: for name in names {
        let rules = match load_said(alloc, name, shelf, err) {
            Ok(rules) => rules,
            Err(status) => return Err(status),
        };
        if files.push(Named { name, rules }).is_err() {
            return Err(Status::Memory);
        }
    }
    Ok(files)
}

/// What a rule file says with the parts that it takes of other files, or the status with which the job ends. The rules
/// outlive the document of their files.
fn load_said<S: Shelf, E: Sink>(
    alloc: Global,
    name: &str,
    shelf: &mut S,
    err: &mut E,
) -> Result<Rules, Status>
    ensures goes_on { IfOk result (λ rules. Continues (said_protocol name.now) (seen_rules rules)
        (S.view shelf.old) (S.view shelf.new) (E.view err.old) (E.view err.new)) }
    ensures fails { IfErr result (λ status. Fails (said_protocol name.now) status
        (S.view shelf.old) (S.view shelf.new) (E.view err.old) (E.view err.new)) }
{
    let bump = Bump::new(alloc);
    let library = match load_library(alloc, &bump, shelf, name, err) {
        Ok(library) => library,
        Err(status) => return Err(status),
    };
    match rules_in(alloc, name, &library, err) {
        Ok(rules) => {
            drop(library);
            Ok(rules)
        }
        Err(status) => {
            drop(library);
            Err(status)
        }
    }
}

/// What a rule file with its parts says, or the status with which the job ends.
fn rules_in<E: Sink>(
    alloc: Global,
    name: &str,
    library: &Library<'_>,
    err: &mut E,
) -> Result<Rules, Status>
    ensures said { IfOk result (λ rules. rules_of (tree_nodes library.now.document) ≡ Ok (seen_rules rules)) }
    ensures quiet { OnOk result (E.view err.new ≡ E.view err.old) }
    ensures refused { IfErr result (λ status. IsRulesRefusal name.now library.now status (E.view err.old) (E.view err.new)) }
{
    match compile(alloc, library.doc()) {
        Ok(rules) => Ok(rules),
        Err(fault) => Err(refuse_rules(name, library, &fault, err)),
    }
}

/// The status with which a job ends whose rule file is refused; its line is told.
fn refuse_rules<E: Sink>(
    name: &str,
    library: &Library<'_>,
    fault: &RuleFault,
    err: &mut E,
) -> Status
    ensures { IsRuleRefusal name.now library.now fault.now result (E.view err.old) (E.view err.new) }
{
    if fault.is_memory() {
        return Status::Memory;
    }
    tell_at_home(name, library, fault, err);
    Status::RulesRefused
}

/// What is active in each file, or the status with which the job ends where the first file hasn't the phase.
fn choose<'r, E: Sink>(
    alloc: Global,
    phase: &str,
    files: &'r [Named<'_>],
    err: &mut E,
) -> Result<Vec<Chosen<'r>>, Status>
    ensures chosen { IfOk result (λ chosen. spec.chosen phase.now (map named_of files.now) ≡ Ok (map chosen_of chosen.items)) }
    ensures came { IfOk result (λ chosen. AreChosen (map chosen_of chosen.items)) }
    ensures quiet { OnOk result (E.view err.new ≡ E.view err.old) }
    ensures fails { IfErr result (λ status. IsPhaseRefusal phase.now (spec.chosen phase.now (map named_of files.now)) status (E.view err.old)
        (E.view err.new)) }
{
    let mut chosen = Vec::new(alloc);
    'files: for file in files {
        let active = match file.rules.phase(alloc, phase) {
            Ok(active) => active,
            Err(PhaseFault::Memory) => return Err(Status::Memory),
            Err(PhaseFault::NoPhase) => {
                tell_no_phase(file.name, phase, err);
                return Err(Status::RulesRefused);
            }
        };
        let one = Chosen {
            rules: &file.rules,
            active,
        };
        if chosen.push(one).is_err() {
            return Err(Status::Memory);
        }
    }
    Ok(chosen)
}

/// Writes what the rules find in a document. All of it is found before the first byte is written.
fn report<L: Ledger, O: Sink>(
    alloc: Global,
    asked: &Checking<'_, '_>,
    chosen: &[Chosen<'_>],
    doc: &Doc<'_>,
    out: &mut O,
    steps: &mut Steps<L>,
) -> Status
    requires { AreChosen (map chosen_of chosen.now) }
    ensures { Reports result (spec.report_asked asked.now) (spec.all_found (tree_nodes doc.now) (map chosen_of chosen.now)) (O.view out.old) (O.view out.new) }
{
    let found = match judge_all(alloc, chosen, doc, steps) {
        Ok(found) => found,
        Err(_) => return Status::Memory,
    };
    match write_report(asked, &found, out) {
        Ok(()) => finding_status(&found),
        Err(_) => Status::WriteFault,
    }
}

/// What the rules find, file by file.
fn judge_all<'r, L: Ledger>(
    alloc: Global,
    chosen: &[Chosen<'r>],
    doc: &Doc<'_>,
    steps: &mut Steps<L>,
) -> Result<Vec<Findings<'r>>, AllocError>
    requires { AreChosen (map chosen_of chosen.now) }
    ensures { IfOk result (λ found. found.items ≡ spec.all_found (tree_nodes doc.now) (map chosen_of chosen.now)) }
{
    let mut found = Vec::new(alloc);
    'files: for file in chosen {
        found.push(judge(alloc, file.rules, &file.active, doc, steps)?)?;
    }
    Ok(found)
}

/// Writes the report as it is asked for.
fn write_report<O: Sink>(
    asked: &Checking<'_, '_>,
    found: &[Findings<'_>],
    out: &mut O,
) -> Result<(), WriteFault>
    ensures { Writes result (spec.report_asked asked.now found.now) (O.view out.old) (O.view out.new) }
{
    match asked.format {
        ReportFormat::Plain => write_plain(found, out),
        ReportFormat::Svrl => write_svrl(found, out),
        ReportFormat::Json => write_json(asked.file, asked.rules, found, out),
    }
}

/// Writes the report as JSON.
fn write_json<O: Sink>(
    file: &str,
    rules: &[&str],
    found: &[Findings<'_>],
    out: &mut O,
) -> Result<(), WriteFault>
    ensures { Writes result (spec.report_text ReportFormat.Json (texts_of rules.now) file.now found.now) (O.view out.old) (O.view out.new) }
{
    if print_findings(file, rules, found, out) {
        return Err(WriteFault);
    }
    Ok(())
}

/// The status of a report.
fn finding_status(found: &[Findings<'_>]) -> Status
    ensures { result ≡ spec.finding_status found.now }
{
    'files: for file in found {
        if any_counts(file.lines()) {
            return Status::Findings;
        }
    }
    Status::Done
}

fn any_counts(lines: &[Line<'_>]) -> bool
    ensures { result ≡ list_any spec.counts lines.now }
{
    lines.iter().any(|line| counts(line))
}

/// Whether a fatal assertion failed, or one is in error.
fn counts(line: &Line<'_>) -> bool
    ensures { result ≡ spec.counts line.now }
{
    match line {
        Line::Found(finding) => finding_counts(finding),
        _ => false,
    }
}

fn finding_counts(finding: &Finding<'_>) -> bool
    ensures { result ≡ spec.finding_counts finding.now.outcome finding.now.level }
{
    match finding.outcome {
        FindingKind::Failed => match finding.level {
            Level::Fatal => true,
            Level::Warning | Level::Information => false,
        },
        FindingKind::Reported => false,
        FindingKind::Error(_) => true,
    }
}
