//! The job that evaluates an expression at a document.
ghost use Rattle.std.specs.Prelude.{◌≡◌, ◌<◌, [], codes, length, IfOk, OnOk, Ok};
ghost use Rattle.std.specs.Str.{IsAscii};
ghost use Rattle.inv_base.specs.Printing.{Prints};
ghost use Rattle.job_protocol.specs.Outside.{TakesOrFails};
ghost use Rattle.job_protocol.specs.declared.status.Status.TheVariants as statuses;
ghost use Rattle.job_protocol.specs.Runs.{RunsInPieces};
ghost use Rattle.node_arena.specs.Moves.{tree_nodes};
ghost use Rattle.xpath_grammar.specs.Grammar.{Grammatical};
ghost use Rattle.xpath_grammar.specs.View.{view};
ghost use Rattle.xpath_meaning.specs.Meaning.{mean, at_top};
ghost use Rattle.xpath_meaning.specs.Values.{value};
ghost use Rattle.xpath_plan.specs.Plans.{expression};
ghost use Rattle.item_listing.specs.Listing.{ValueWithin};
ghost use Rattle.xpath_types.specs.Scopes.{with_prefix};
ghost use Rattle.bind_rows.specs.declared.names.Namespace.TheVariants as spaces;
ghost use Rattle.bind_rows.specs.Namespaces as names;
ghost use Rattle.document_jobs.specs.Queries as spec;
ghost use Rattle.document_jobs.specs.Queries.{Asks, IsQueryRefusal, Answered, answered, by_expression, query_protocol};

use bind_rows::{Namespace, uri_of};
use bumpalo::Bump;
use inv_base::{Printer, Shelf, Sink, Steps};
use item_listing::write_items;
use itoa::Buffer;
use job_protocol::{Status, load_document};
use node_arena::Doc;
use std::alloc::{AllocError, Global};
use std::marker::Brand;
use std::sync::ledger::{Blank, Ledger};
use xpath_grammar::expr::Expr;
use xpath_items::{Focus, Item, Outcome};
use xpath_plan::laws::typed_expressions_are_grammatical;
use xpath_plan::{Plan, compile};
use xpath_run::{Env, Run};
use xpath_syntax::laws::answers_are_grammatical;
use xpath_syntax::parse;
use xpath_tokens::token::SyntaxFault;
use xpath_types::{Scope, TypeFault, TypeKind, check};

/// Why an expression is refused.
#[derive(Clone, Copy)]
pub(crate) enum QueryFault {
    /// The text is no expression.
    Syntax(SyntaxFault),
    /// Names or kinds are refused, at this token, counted from 0.
    Typing(TypeKind, u32),
    /// Memory ran out.
    Memory,
}

/// Prints the value of an expression at a document. The expression is judged before the document is opened.
pub fn query<S: Shelf, O: Sink, E: Sink>(
    alloc: Global,
    text: &str,
    file: &str,
    shelf: &mut S,
    out: &mut O,
    err: &mut E,
) -> Status
    ensures { RunsInPieces (query_protocol text.now file.now)
        (record { shelf = S.view shelf.old; out = O.view out.old; err = E.view err.old })
        (record { shelf = S.view shelf.new; out = O.view out.new; err = E.view err.new }) result }
{
    match plan_of(alloc, text) {
        Ok(plan) => {
            let status = query_by(alloc, &plan, file, shelf, out, err);
            drop(plan);
            status
        }
        Err(fault) => refuse_expression(&fault, err),
    }
}

/// Prints the value of a plan's expression at a document.
fn query_by<S: Shelf, O: Sink, E: Sink>(
    alloc: Global,
    plan: &Plan,
    file: &str,
    shelf: &mut S,
    out: &mut O,
    err: &mut E,
) -> Status
    ensures { RunsInPieces (by_expression file.now (Ok (expression plan.now)))
        (record { shelf = S.view shelf.old; out = O.view out.old; err = E.view err.old })
        (record { shelf = S.view shelf.new; out = O.view out.new; err = E.view err.new }) result }
{
    let bump = Bump::new(alloc);
    let doc = match load_document(alloc, &bump, shelf, file, err) {
        Ok(doc) => doc,
        Err(status) => return status,
    };
    write_answer(alloc, plan, &doc, out)
}

/// The plan of an expression, or its first refusal.
fn plan_of(alloc: Global, text: &str) -> Result<Plan, QueryFault>
    ensures { Asks result (spec.expression_of text.now) }
{
    answers_are_grammatical();
    match parse(alloc, text) {
        Ok(tree) => {
            let plan = plan_of_tree(alloc, &tree);
            drop(tree);
            plan
        }
        Err(fault) => Err(fault_of(fault)),
    }
}

/// The same of the tree of a text.
fn plan_of_tree(alloc: Global, tree: &Expr) -> Result<Plan, QueryFault>
    requires { Grammatical (view tree.now) }
    ensures { Asks result (spec.typed_in_query (view tree.now)) }
{
    match query_scope(alloc) {
        Ok(scope) => {
            let plan = typed_plan(alloc, tree, &scope);
            drop(scope);
            plan
        }
        Err(_) => Err(QueryFault::Memory),
    }
}

/// A fault of a text as one of a query.
fn fault_of(fault: SyntaxFault) -> QueryFault
    ensures { result ≡ spec.fault_of fault }
{
    match fault {
        SyntaxFault::TooLong => QueryFault::Syntax(SyntaxFault::TooLong),
        SyntaxFault::Lexical(place) => QueryFault::Syntax(SyntaxFault::Lexical(place)),
        SyntaxFault::NumberTooWide => QueryFault::Syntax(SyntaxFault::NumberTooWide),
        SyntaxFault::Unsupported(token) => QueryFault::Syntax(SyntaxFault::Unsupported(token)),
        SyntaxFault::Syntax => QueryFault::Syntax(SyntaxFault::Syntax),
        SyntaxFault::TooDeep => QueryFault::Syntax(SyntaxFault::TooDeep),
        SyntaxFault::Memory => QueryFault::Memory,
    }
}

/// The same where the prefixes of a query are bound.
fn typed_plan(alloc: Global, tree: &Expr, scope: &Scope) -> Result<Plan, QueryFault>
    requires scope { scope.now ≡ spec.query_scope }
    requires tree { Grammatical (view tree.now) }
    ensures { Asks result (spec.typed_in_query (view tree.now)) }
{
    typed_expressions_are_grammatical();
    let typed = match check(alloc, tree, scope) {
        Ok(typed) => typed,
        Err(fault) => return Err(type_fault_of(fault)),
    };
    match compile(alloc, &typed) {
        Ok(plan) => Ok(plan),
        Err(_) => Err(QueryFault::Memory),
    }
}

/// A refusal of names or kinds as a fault of a query.
fn type_fault_of(fault: TypeFault) -> QueryFault
    ensures { result ≡ spec.type_fault_of fault }
{
    match fault {
        TypeFault::Refused { kind, token } => QueryFault::Typing(kind, token),
        TypeFault::Memory => QueryFault::Memory,
    }
}

/// The prefixes of a query, bound to their namespaces.
fn query_scope(alloc: Global) -> Result<Scope, AllocError>
    ensures { IfOk result (λ scope. scope ≡ spec.query_scope) }
{
    let mut scope = Scope::new(alloc);
    match bind_all(&mut scope, alloc) {
        Ok(()) => Ok(scope),
        Err(error) => {
            drop(scope);
            Err(error)
        }
    }
}

/// Binds the prefixes of a query, where nothing is declared yet.
fn bind_all(scope: &mut Scope, alloc: Global) -> Result<(), AllocError>
    requires { scope.old ≡ record { prefixes = []; variables = [] } }
    ensures { OnOk result (scope.new ≡ spec.query_scope) }
{
    bind_ubl(scope, alloc)?;
    bind_cii(scope, alloc)?;
    Ok(())
}

/// Binds the prefixes of UBL.
fn bind_ubl(scope: &mut Scope, alloc: Global) -> Result<(), AllocError>
    ensures { OnOk result (scope.new ≡ with_prefix (with_prefix (with_prefix (with_prefix scope.old
        (codes "ubl") (names.uri_of spaces.UblInvoice)) (codes "cn") (names.uri_of spaces.UblCreditNote))
        (codes "cac") (names.uri_of spaces.UblAggregate)) (codes "cbc") (names.uri_of spaces.UblBasic)) }
{
    bind(scope, alloc, "ubl", Namespace::UblInvoice)?;
    bind(scope, alloc, "cn", Namespace::UblCreditNote)?;
    bind(scope, alloc, "cac", Namespace::UblAggregate)?;
    bind(scope, alloc, "cbc", Namespace::UblBasic)?;
    Ok(())
}

/// Binds the prefixes of CII.
fn bind_cii(scope: &mut Scope, alloc: Global) -> Result<(), AllocError>
    ensures { OnOk result (scope.new ≡ with_prefix (with_prefix (with_prefix (with_prefix scope.old
        (codes "rsm") (names.uri_of spaces.CiiInvoice)) (codes "ram") (names.uri_of spaces.CiiAggregate))
        (codes "udt") (names.uri_of spaces.CiiUnqualified)) (codes "qdt") (names.uri_of spaces.CiiQualified)) }
{
    bind(scope, alloc, "rsm", Namespace::CiiInvoice)?;
    bind(scope, alloc, "ram", Namespace::CiiAggregate)?;
    bind(scope, alloc, "udt", Namespace::CiiUnqualified)?;
    bind(scope, alloc, "qdt", Namespace::CiiQualified)?;
    Ok(())
}

/// Binds a prefix to a namespace.
fn bind(
    scope: &mut Scope,
    alloc: Global,
    prefix: &str,
    namespace: Namespace,
) -> Result<(), AllocError>
    requires { IsAscii prefix.now }
    ensures { OnOk result (scope.new ≡ with_prefix scope.old prefix.now (names.uri_of namespace)) }
{
    scope.prefix(alloc, prefix, uri_of(namespace))?;
    Ok(())
}

/// The status with which a query ends whose expression is refused; its line is told.
fn refuse_expression<E: Sink>(fault: &QueryFault, err: &mut E) -> Status
    ensures { IsQueryRefusal fault.now result (E.view err.old) (E.view err.new) }
{
    match fault {
        QueryFault::Memory => Status::Memory,
        QueryFault::Syntax(_) => tell_refusal(fault, err),
        QueryFault::Typing(_, _) => tell_refusal(fault, err),
    }
}

/// The status of a fault that is told.
fn tell_refusal<E: Sink>(fault: &QueryFault, err: &mut E) -> Status
    ensures { (result ≡ statuses.RulesRefused) × TakesOrFails (spec.expression_line fault.now) (E.view err.old) (E.view err.new) }
{
    tell_expression_fault(fault, err);
    Status::RulesRefused
}

/// Tells why an expression is refused.
fn tell_expression_fault<E: Sink>(fault: &QueryFault, err: &mut E)
    ensures { TakesOrFails (spec.expression_line fault.now) (E.view err.old) (E.view err.new) }
{
    let mut printer = Printer::new();
    printer.put(err, b"einv: expression: ");
    print_query_fault(fault, &mut printer, err);
    printer.put(err, b"\n");
}

fn print_query_fault<E: Sink>(fault: &QueryFault, printer: &mut Printer, err: &mut E)
    ensures { Prints (spec.query_fault_text fault.now) printer.old.failed printer.new.failed (E.view err.old) (E.view err.new) }
{
    match fault {
        QueryFault::Syntax(fault) => print_syntax_fault(fault, printer, err),
        QueryFault::Typing(kind, token) => print_placed(type_name(*kind), *token, printer, err),
        QueryFault::Memory => printer.put(err, b"Memory"),
    }
}

/// Prints why a text is no expression.
pub(crate) fn print_syntax_fault<E: Sink>(fault: &SyntaxFault, printer: &mut Printer, err: &mut E)
    ensures { Prints (spec.syntax_text fault.now) printer.old.failed printer.new.failed (E.view err.old) (E.view err.new) }
{
    match fault {
        SyntaxFault::TooLong => printer.put(err, b"TooLong"),
        SyntaxFault::Lexical(place) => print_placed("Lexical", *place, printer, err),
        SyntaxFault::NumberTooWide => printer.put(err, b"NumberTooWide"),
        SyntaxFault::Unsupported(token) => print_placed("Unsupported", *token, printer, err),
        SyntaxFault::Syntax => printer.put(err, b"Syntax"),
        SyntaxFault::TooDeep => printer.put(err, b"TooDeep"),
        SyntaxFault::Memory => printer.put(err, b"Memory"),
    }
}

/// Prints a kind of fault and its place.
pub(crate) fn print_placed<E: Sink>(kind: &str, place: u32, printer: &mut Printer, err: &mut E)
    ensures { Prints (spec.placed kind.now place) printer.old.failed printer.new.failed (E.view err.old) (E.view err.new) }
{
    let mut digits = Buffer::new();
    printer.put(err, kind.as_bytes());
    printer.put(err, b" ");
    printer.put(err, digits.format(place).as_bytes());
}

/// The name of a kind of refusal.
pub(crate) fn type_name(kind: TypeKind) -> &'static str
    ensures { result.now ≡ spec.type_text kind }
{
    match kind {
        TypeKind::UndeclaredPrefix => "UndeclaredPrefix",
        TypeKind::UndeclaredVariable => "UndeclaredVariable",
        TypeKind::UnknownFunction => "UnknownFunction",
        TypeKind::UnknownType => "UnknownType",
        TypeKind::WrongArity => "WrongArity",
        TypeKind::NotLiteral => "NotLiteral",
        TypeKind::BadPattern => "BadPattern",
        TypeKind::PatternTooLarge => "PatternTooLarge",
        TypeKind::SureTypeError => "SureTypeError",
    }
}

/// Writes the value of an expression at a document.
fn write_answer<O: Sink>(alloc: Global, plan: &Plan, doc: &Doc<'_>, out: &mut O) -> Status
    ensures { Answered result (answered (expression plan.now) (tree_nodes doc.now)) (O.view out.old) (O.view out.new) }
{
    write_by::<Brand, O>(alloc, plan, doc, Blank::new(1), out)
}

/// The same by steps that nobody asks for.
fn write_by<L: Ledger, O: Sink>(
    alloc: Global,
    plan: &Plan,
    doc: &Doc<'_>,
    ledger: Blank,
    out: &mut O,
) -> Status
    requires name { ledger.name ≡ L.name }
    requires parts { ledger.parts ≡ L.parts }
    requires some { 0 < ledger.parts }
    ensures { Answered result (answered (expression plan.now) (tree_nodes doc.now)) (O.view out.old) (O.view out.new) }
{
    let mut steps = Steps::<L>::new(ledger);
    let outcome = match value_of(alloc, plan, doc, &mut steps) {
        Ok(outcome) => outcome,
        Err(_) => return Status::Memory,
    };
    match write_items(alloc, doc, &outcome, out, &mut steps) {
        Ok(failed) => {
            drop(outcome);
            status_of(failed)
        }
        Err(_) => {
            drop(outcome);
            Status::Memory
        }
    }
}

/// The value of an expression at a document.
fn value_of<'a, L: Ledger>(
    alloc: Global,
    plan: &'a Plan,
    doc: &Doc<'a>,
    steps: &mut Steps<L>,
) -> Result<Outcome<'a>, AllocError>
    ensures value { IfOk result (λ outcome. value outcome ≡ mean (tree_nodes doc.now) (expression plan.now) (at_top 0 [])) }
    ensures within { IfOk result (λ outcome. ValueWithin (length doc.now.nodes) (value outcome)) }
{
    let mut run = Run::new(alloc, plan, doc)?;
    let env = Env::new(alloc);
    let focus = Focus {
        item: Item::Node(doc.document()),
        position: 1,
        last: 1,
    };
    match run.run_plan(alloc, &focus, &env, steps) {
        Ok(outcome) => {
            drop(focus);
            Ok(outcome)
        }
        Err(error) => {
            drop(focus);
            Err(error)
        }
    }
}

/// The status of an answer that was written, by whether a write failed.
fn status_of(failed: bool) -> Status
    ensures { result ≡ spec.status_of failed }
{
    if failed {
        Status::WriteFault
    } else {
        Status::Done
    }
}
