//! The lines of rule files that are refused, or have no phase of a name.
ghost use Rattle.std.specs.Prelude.{◌≡◌};
ghost use Rattle.inv_base.specs.Printing.{Prints};
ghost use Rattle.job_protocol.specs.Outside.{TakesOrFails};
ghost use Rattle.document_jobs.specs.Checks.{fault_line, home_line, file_at, rule_kind_text, rule_attribute_text, rule_expression_text, reason_text};
ghost use Rattle.document_jobs.specs.Checks.{no_phase_line};

use crate::queries::{print_placed, print_syntax_fault, type_name};
use inv_base::{Place, Printer, Sink};
use itoa::Buffer;
use rule_library::Library;
use schematron_compile::{Attribute, ExpressionFault, RuleFault, RuleKind};
use xpath_grammar::words::Worded;

/// Tells why a rule file with its parts is refused, and in which of the files, and where in it.
pub(crate) fn tell_at_home<E: Sink>(
    name: &str,
    library: &Library<'_>,
    fault: &RuleFault,
    err: &mut E,
)
    ensures { TakesOrFails (home_line name.now library.now fault.now) (E.view err.old) (E.view err.new) }
{
    match library.home(fault.place) {
        None => tell_rule_fault(name, fault.place, fault, err),
        Some((number, place)) => {
            tell_rule_fault(file_at(name, library, number), place, fault, err);
        }
    }
}

/// The name of the file of that number.
fn file_at<'l>(name: &'l str, library: &'l Library<'_>, number: u32) -> &'l str
    ensures { result.now ≡ file_at name.now library.now number }
{
    match library.file(number) {
        None => name,
        Some(file) => file,
    }
}

/// Tells why a rule file is refused, and in which of its files, and where in it.
fn tell_rule_fault<E: Sink>(file: &str, place: Place, fault: &RuleFault, err: &mut E)
    ensures { TakesOrFails (fault_line file.now place.byte fault.now) (E.view err.old) (E.view err.new) }
{
    let mut digits = Buffer::new();
    let mut printer = Printer::new();
    printer.put(err, b"einv: ");
    printer.put(err, file.as_bytes());
    printer.put(err, b": ");
    printer.put(err, rule_kind_name(&fault.kind).as_bytes());
    printer.put(err, b" at ");
    printer.put(err, digits.format(place.byte).as_bytes());
    printer.put(err, b" ");
    printer.put(err, rule_attribute_name(fault.attribute).as_bytes());
    print_reason(&fault.kind, &mut printer, err);
    printer.put(err, b"\n");
}

/// The name of a kind of fault.
fn rule_kind_name(kind: &RuleKind) -> &'static str
    ensures { result.now ≡ rule_kind_text kind.now }
{
    match kind {
        RuleKind::NotSchematron => "NotSchematron",
        RuleKind::BadBinding => "BadBinding",
        RuleKind::BadElement => "BadElement",
        RuleKind::MissingAttribute => "MissingAttribute",
        RuleKind::DuplicateId => "DuplicateId",
        RuleKind::NoSuchPattern => "NoSuchPattern",
        RuleKind::NoSuchRule => "NoSuchRule",
        RuleKind::Cycle => "Cycle",
        RuleKind::Expression(_) => "Expression",
        RuleKind::TooMany => "TooMany",
        RuleKind::Memory => "Memory",
    }
}

fn rule_attribute_name(attribute: Option<Attribute>) -> &'static str
    ensures { result.now ≡ rule_attribute_text attribute }
{
    match attribute {
        None => "-",
        Some(attribute) => attribute.word(),
    }
}

/// Prints what is told behind the attribute: why an expression is refused.
fn print_reason<E: Sink>(kind: &RuleKind, printer: &mut Printer, err: &mut E)
    ensures { Prints (reason_text kind.now) printer.old.failed printer.new.failed (E.view err.old) (E.view err.new) }
{
    match kind {
        RuleKind::Expression(fault) => {
            printer.put(err, b": ");
            print_expression_fault(fault, printer, err);
        }
        _ => {}
    }
}

fn print_expression_fault<E: Sink>(fault: &ExpressionFault, printer: &mut Printer, err: &mut E)
    ensures { Prints (rule_expression_text fault.now) printer.old.failed printer.new.failed (E.view err.old) (E.view err.new) }
{
    match fault {
        ExpressionFault::Syntax(fault) => print_syntax_fault(fault, printer, err),
        ExpressionFault::Type { kind, token } => {
            print_placed(type_name(*kind), *token, printer, err);
        }
    }
}

/// Tells that a rule file hasn't the phase of a name.
pub(crate) fn tell_no_phase<E: Sink>(file: &str, phase: &str, err: &mut E)
    ensures { TakesOrFails (no_phase_line file.now phase.now) (E.view err.old) (E.view err.new) }
{
    let mut printer = Printer::new();
    printer.put(err, b"einv: ");
    printer.put(err, file.as_bytes());
    printer.put(err, b": NoPhase ");
    printer.put(err, phase.as_bytes());
    printer.put(err, b"\n");
}
