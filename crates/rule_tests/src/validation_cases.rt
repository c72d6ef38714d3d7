//! Reports of validations, compared with texts that were written by hand.
ghost use Rattle.std.specs.Prelude.{◌≡◌, ◌<◌, ℕ, length};
ghost use Rattle.std.specs.List.{All};
ghost use Rattle.bind_meaning.specs.declared.fault.BindFault.{BindFault};

use crate::documents::document;
use bind_meaning::{BindFault, BindKind};
use bumpalo::Bump;
use inv_base::{MemSink, Steps, Str, Txt};
use inv_terms::Name;
use line_places::{ByteReceiver, LineStarts};
use node_arena::{Doc, NodeId};
use schematron_findings::{Finding, FindingKind, Findings, Lent, Level, Line};
use std::alloc::{AllocError, Global};
use std::marker::Brand;
use std::sync::ledger::{Blank, Ledger};
use std::test::Fail;
use term_table::{Group, Term};
use test_rows::{Holds, expect, expect_rows};
use validation_report::{ReadingFindings, Validation};
use xpath_items::DynError;

/// A document whose root stands at 4:1, and whose elements stand at 8:3 and 12:3; one of its lines ends with CR LF. The second
/// element has 61 characters between white space, in two texts around an element.
const DOCUMENT: &str =
    "<?xml version=\"1.0\"?>\n\n\n<Invoice xmlns=\"urn:x\">\r\n\n\n\n  <IssueDate>02.03.2026</IssueDate>\n\n\n\n  \
<Unknown code=\" \u{e4} &quot;b&quot; \">\n123456789-123456789-123456789-<b>inside</b>123456789-123456789-123456789-Z\t</Unknown>\n\
</Invoice>\n";

/// What is wanted of a report: its two texts, and whether it has findings.
#[derive(Clone, Copy)]
struct Wanted {
    plain: &'static str,
    svrl: &'static str,
    findings: bool,
}

/// A fault at the one element, which is unread too, and the other passed over and misplaced.
const READING: Wanted = Wanted {
    plain: "\
fault BadValue BT-2 /*:Invoice[namespace-uri()='urn:x'][1]/*:IssueDate[namespace-uri()='urn:x'][1] at 8:3 \"Invoice issue date\"
passed over /*:Invoice[namespace-uri()='urn:x'][1]/*:Unknown[namespace-uri()='urn:x'][1] at 12:3
unread /*:Invoice[namespace-uri()='urn:x'][1]/*:IssueDate[namespace-uri()='urn:x'][1] at 8:3 \"02.03.2026\"
misplaced /*:Invoice[namespace-uri()='urn:x'][1]/*:Unknown[namespace-uri()='urn:x'][1] at 12:3
faults 1, passed over 1, unread 1, misplaced 1, failed 0, reported 0, errors 0, minor 0
",
    svrl: "\
<?xml version=\"1.0\" encoding=\"UTF-8\"?>
<svrl:schematron-output xmlns:svrl=\"http://purl.oclc.org/dsdl/svrl\"><svrl:active-pattern id=\"reading\"/><svrl:fired-rule context=\"/\"/>\
<svrl:failed-assert test=\"BadValue\" location=\"/*:Invoice[namespace-uri()='urn:x'][1]/*:IssueDate[namespace-uri()='urn:x'][1]\" id=\"BT-2\" \
flag=\"fatal\"><svrl:text>Invoice issue date</svrl:text></svrl:failed-assert>\
<svrl:failed-assert test=\"Misplaced\" location=\"/*:Invoice[namespace-uri()='urn:x'][1]/*:Unknown[namespace-uri()='urn:x'][1]\" flag=\"fatal\">\
<svrl:text>Unknown</svrl:text></svrl:failed-assert></svrl:schematron-output>
",
    findings: true,
};

/// Unread nodes, which count against nothing: the text of an element is cut behind 60 characters, the value of an attribute is
/// trimmed and quoted.
const UNREAD: Wanted = Wanted {
    plain: "\
unread /*:Invoice[namespace-uri()='urn:x'][1] at 4:1 \"\"
unread /*:Invoice[namespace-uri()='urn:x'][1]/*:Unknown[namespace-uri()='urn:x'][1] at 12:3 \"123456789-123456789-123456789-123456789-123456789-123456789-..\"
unread /*:Invoice[namespace-uri()='urn:x'][1]/*:Unknown[namespace-uri()='urn:x'][1]/@*:code[namespace-uri()=''] at 12:3 \"\u{e4} \\\"b\\\"\"
faults 0, passed over 0, unread 3, misplaced 0, failed 0, reported 0, errors 0, minor 0
",
    svrl: "\
<?xml version=\"1.0\" encoding=\"UTF-8\"?>
<svrl:schematron-output xmlns:svrl=\"http://purl.oclc.org/dsdl/svrl\"><svrl:active-pattern id=\"reading\"/><svrl:fired-rule context=\"/\"/>\
</svrl:schematron-output>
",
    findings: false,
};

/// A misplaced element counts against the document by itself.
const MISPLACED: Wanted = Wanted {
    plain: "\
misplaced /*:Invoice[namespace-uri()='urn:x'][1]/*:IssueDate[namespace-uri()='urn:x'][1] at 8:3
faults 0, passed over 0, unread 0, misplaced 1, failed 0, reported 0, errors 0, minor 0
",
    svrl: "\
<?xml version=\"1.0\" encoding=\"UTF-8\"?>
<svrl:schematron-output xmlns:svrl=\"http://purl.oclc.org/dsdl/svrl\"><svrl:active-pattern id=\"reading\"/><svrl:fired-rule context=\"/\"/>\
<svrl:failed-assert test=\"Misplaced\" location=\"/*:Invoice[namespace-uri()='urn:x'][1]/*:IssueDate[namespace-uri()='urn:x'][1]\" flag=\"fatal\">\
<svrl:text>IssueDate</svrl:text></svrl:failed-assert></svrl:schematron-output>
",
    findings: true,
};

/// Faults with names of each sort, and findings, which the plain report has in document order.
const MIXED: Wanted = Wanted {
    plain: "\
fault Disagree - / at 1:1 \"\"
fault Missing BG-4 /*:Invoice[namespace-uri()='urn:x'][1] at 4:1 \"Seller\"
fault CurrencyDiffers BT-30-1 /*:Invoice[namespace-uri()='urn:x'][1] at 4:1 \"scheme of BT-30\"
fault Excess EXT-7 /*:Invoice[namespace-uri()='urn:x'][1]/*:Unknown[namespace-uri()='urn:x'][1] at 12:3 \"\"
reported C /c at 4:1 \"a \\\"C\\\"\"
error FORG0001 D /d at 8:3 \"a \\\"D\\\"\"
failed A /a at 12:3 \"a \\\"A\\\"\"
warning B /b at 12:3 \"a \\\"B\\\"\"
information E /e at 12:3 \"a \\\"E\\\"\"
faults 4, passed over 0, unread 0, misplaced 0, failed 1, reported 1, errors 1, minor 2
",
    svrl: "\
<?xml version=\"1.0\" encoding=\"UTF-8\"?>
<svrl:schematron-output xmlns:svrl=\"http://purl.oclc.org/dsdl/svrl\"><svrl:active-pattern id=\"reading\"/><svrl:fired-rule context=\"/\"/>\
<svrl:failed-assert test=\"Disagree\" location=\"/\" flag=\"fatal\"><svrl:text/></svrl:failed-assert>\
<svrl:failed-assert test=\"Missing\" location=\"/*:Invoice[namespace-uri()='urn:x'][1]\" id=\"BG-4\" flag=\"fatal\">\
<svrl:text>Seller</svrl:text></svrl:failed-assert>\
<svrl:failed-assert test=\"CurrencyDiffers\" location=\"/*:Invoice[namespace-uri()='urn:x'][1]\" id=\"BT-30-1\" flag=\"fatal\">\
<svrl:text>scheme of BT-30</svrl:text></svrl:failed-assert>\
<svrl:failed-assert test=\"Excess\" location=\"/*:Invoice[namespace-uri()='urn:x'][1]/*:Unknown[namespace-uri()='urn:x'][1]\" id=\"EXT-7\" \
flag=\"fatal\"><svrl:text/></svrl:failed-assert>\
<svrl:active-pattern/><svrl:fired-rule context=\"c\"/>\
<svrl:failed-assert test=\"t\" location=\"/a\" id=\"A\"><svrl:text>a \"A\"</svrl:text></svrl:failed-assert>\
<svrl:failed-assert test=\"t\" location=\"/b\" id=\"B\"><svrl:text>a \"B\"</svrl:text></svrl:failed-assert>\
<svrl:fired-rule context=\"c\"/>\
<svrl:successful-report test=\"t\" location=\"/c\" id=\"C\"><svrl:text>a \"C\"</svrl:text></svrl:successful-report>\
<svrl:active-pattern/><svrl:fired-rule context=\"c\"/>\
<svrl:failed-assert test=\"t\" location=\"/d\" id=\"D\" flag=\"FORG0001\" role=\"error\"><svrl:text>a \"D\"</svrl:text></svrl:failed-assert>\
<svrl:fired-rule context=\"c\"/>\
<svrl:failed-assert test=\"t\" location=\"/e\" id=\"E\"><svrl:text>a \"E\"</svrl:text></svrl:failed-assert>\
</svrl:schematron-output>
",
    findings: true,
};

/// The lines of the findings in the order of judging. Behind `fired` stands which of the elements is judged, and behind
/// another word the id.
const JUDGED: &str =
    "pattern,fired unknown,failed A,warning B,fired root,reported C,pattern,fired date,error D,fired unknown,information E";

/// The elements of the document, and an attribute.
#[derive(Clone, Copy)]
struct Elements {
    root: NodeId,
    date: NodeId,
    unknown: NodeId,
    // The attribute of the second one.
    code: NodeId,
}

/// What sort of finding a word tells, and its level.
#[derive(Clone, Copy)]
struct Sort {
    outcome: FindingKind,
    level: Level,
}

fn sort_of(word: &str) -> Sort {
    let (outcome, level) = match word {
        "reported" => (FindingKind::Reported, Level::Fatal),
        "error" => (FindingKind::Error(DynError::FORG0001), Level::Fatal),
        "warning" => (FindingKind::Failed, Level::Warning),
        "information" => (FindingKind::Failed, Level::Information),
        _ => (FindingKind::Failed, Level::Fatal),
    };
    Sort { outcome, level }
}

/// The location of a finding, by its id.
fn location_of(id: &str) -> &'static str {
    match id {
        "A" => "/a",
        "B" => "/b",
        "C" => "/c",
        "D" => "/d",
        _ => "/e",
    }
}

fn message_of(id: &str) -> &'static str {
    match id {
        "A" => "a \"A\"",
        "B" => "a \"B\"",
        "C" => "a \"C\"",
        "D" => "a \"D\"",
        _ => "a \"E\"",
    }
}

fn push_found<'r>(
    alloc: Global,
    findings: &mut Findings<'r>,
    sort: Sort,
    id: &'r str,
) -> Result<(), AllocError> {
    let location = Txt::of(alloc, location_of(id))?;
    let message = Txt::of(alloc, message_of(id))?;
    findings.push(Line::Found(Finding {
        outcome: sort.outcome,
        level: sort.level,
        test: Lent::of("t"),
        location,
        message,
        id: Some(Str::lent(id)),
        flag: None,
        role: None,
    }))
}

fn push_fired(findings: &mut Findings<'_>, node: NodeId) -> Result<(), AllocError> {
    findings.push(Line::Fired {
        node,
        rule: 3,
        context: Lent::of("c"),
    })
}

fn element_of(elements: &Elements, word: &str) -> NodeId {
    match word {
        "root" => elements.root,
        "date" => elements.date,
        _ => elements.unknown,
    }
}

/// Adds the line that a text tells.
fn push_line<'r>(
    alloc: Global,
    findings: &mut Findings<'r>,
    elements: &Elements,
    text: &'r str,
) -> Result<(), AllocError> {
    let (word, behind) = text.split_once(' ').unwrap_or((text, ""));
    match word {
        "pattern" => findings.push(Line::Pattern { id: None }),
        "fired" => push_fired(findings, element_of(elements, behind)),
        _ => push_found(alloc, findings, sort_of(word), behind),
    }
}

/// Adds the lines that stand in a text, with commas between them.
fn push_lines<'r>(
    alloc: Global,
    findings: &mut Findings<'r>,
    elements: &Elements,
    texts: &'r str,
) -> Result<(), AllocError> {
    for text in texts.split(',') {
        if !text.is_empty() {
            push_line(alloc, findings, elements, text)?;
        }
    }
    Ok(())
}

fn findings_of<'r>(
    alloc: Global,
    elements: &Elements,
    texts: &'r str,
) -> Result<Findings<'r>, AllocError> {
    let mut findings = Findings::new(alloc);
    match push_lines(alloc, &mut findings, elements, texts) {
        Ok(()) => Ok(findings),
        Err(error) => {
            drop(findings);
            Err(error)
        }
    }
}

/// Whether the plain report is this.
fn is_plain(alloc: Global, report: &Validation<'_>, want: &str) -> Result<bool, AllocError> {
    let mut sink = MemSink::new(alloc, 2000)?;
    let written = report.write_plain(&mut sink).is_ok();
    let same = sink.bytes() == want.as_bytes();
    drop(sink);
    Ok(written & same)
}

/// Whether the report in SVRL is this.
fn is_svrl(alloc: Global, report: &Validation<'_>, want: &str) -> Result<bool, AllocError> {
    let mut sink = MemSink::new(alloc, 3000)?;
    let written = report.write_svrl(&mut sink).is_ok();
    let same = sink.bytes() == want.as_bytes();
    drop(sink);
    Ok(written & same)
}

/// Whether neither report fits into so many bytes, and each fills no more.
fn overflow(alloc: Global, report: &Validation<'_>, room: usize) -> Result<bool, AllocError> {
    let mut sink = MemSink::new(alloc, room)?;
    let plain = report.write_plain(&mut sink).is_err();
    let svrl = report.write_svrl(&mut sink).is_err();
    let fills = sink.bytes().len() <= room;
    drop(sink);
    Ok(plain & svrl & fills)
}

fn is_told(alloc: Global, report: &Validation<'_>, wanted: Wanted) -> Result<bool, AllocError> {
    let plain = is_plain(alloc, report, wanted.plain)?;
    let svrl = is_svrl(alloc, report, wanted.svrl)?;
    let failed = overflow(alloc, report, 60)?;
    Ok(plain & svrl & failed & (report.has_findings() == wanted.findings))
}

/// Whether what the reading and the rules find is reported so.
fn is_reported(
    alloc: Global,
    doc: &Doc<'_>,
    lines: &LineStarts,
    reading: ReadingFindings<'_>,
    findings: Findings<'_>,
    wanted: Wanted,
) -> Result<bool, AllocError>
    requires faults { All (λ (fault : BindFault). fault.node < length doc.now.nodes) reading.faults.now }
    requires passed { All (λ (n : ℕ). n < length doc.now.nodes) reading.passed.now }
    requires unread { All (λ (n : ℕ). n < length doc.now.nodes) reading.unread.now }
    requires misplaced { All (λ (n : ℕ). n < length doc.now.nodes) reading.misplaced.now }
{
    let report = Validation::new(alloc, doc, lines, &reading, findings)?;
    let held = is_told(alloc, &report, wanted);
    drop(report);
    held
}

fn fault(kind: BindKind, name: Name, node: NodeId) -> BindFault
    ensures { result.node ≡ node }
{
    BindFault { kind, name, node }
}

fn term(number: u16, part: u8) -> Name {
    Name::Term(Term { number, part })
}

fn reports_reading(
    alloc: Global,
    doc: &Doc<'_>,
    lines: &LineStarts,
    elements: Elements,
) -> Result<bool, AllocError>
    requires date { elements.date < length doc.now.nodes }
    requires unknown { elements.unknown < length doc.now.nodes }
{
    let faults = [fault(BindKind::BadValue, term(2, 0), elements.date)];
    let reading = ReadingFindings {
        faults: &faults,
        passed: &[elements.unknown],
        unread: &[elements.date],
        misplaced: &[elements.unknown],
    };
    is_reported(alloc, doc, lines, reading, Findings::new(alloc), READING)
}

fn reports_unread(
    alloc: Global,
    doc: &Doc<'_>,
    lines: &LineStarts,
    elements: Elements,
) -> Result<bool, AllocError>
    requires root { elements.root < length doc.now.nodes }
    requires unknown { elements.unknown < length doc.now.nodes }
    requires code { elements.code < length doc.now.nodes }
{
    let reading = ReadingFindings {
        faults: &[],
        passed: &[],
        unread: &[elements.root, elements.unknown, elements.code],
        misplaced: &[],
    };
    is_reported(alloc, doc, lines, reading, Findings::new(alloc), UNREAD)
}

fn reports_misplaced(
    alloc: Global,
    doc: &Doc<'_>,
    lines: &LineStarts,
    elements: Elements,
) -> Result<bool, AllocError>
    requires { elements.date < length doc.now.nodes }
{
    let reading = ReadingFindings {
        faults: &[],
        passed: &[],
        unread: &[],
        misplaced: &[elements.date],
    };
    is_reported(alloc, doc, lines, reading, Findings::new(alloc), MISPLACED)
}

fn reports_mixed(
    alloc: Global,
    doc: &Doc<'_>,
    lines: &LineStarts,
    elements: Elements,
) -> Result<bool, AllocError>
    requires root { elements.root < length doc.now.nodes }
    requires unknown { elements.unknown < length doc.now.nodes }
{
    let faults = [
        fault(BindKind::Disagree, Name::Nothing, doc.document()),
        fault(BindKind::Missing, Name::Group(Group::Seller), elements.root),
        fault(BindKind::CurrencyDiffers, term(30, 1), elements.root),
        fault(BindKind::Excess, term(1007, 0), elements.unknown),
    ];
    let findings = findings_of(alloc, &elements, JUDGED)?;
    let reading = ReadingFindings {
        faults: &faults,
        passed: &[],
        unread: &[],
        misplaced: &[],
    };
    is_reported(alloc, doc, lines, reading, findings, MIXED)
}

/// Of each row the findings, whether any counts against the document, and the end of the plain report.
const COUNTS: &str = "\
→no failed 0, reported 0, errors 0, minor 0
pattern→no failed 0, reported 0, errors 0, minor 0
fired root→no failed 0, reported 0, errors 0, minor 0
fired root,warning A→no failed 0, reported 0, errors 0, minor 1
warning A,information B→no failed 0, reported 0, errors 0, minor 2
fired date,reported A→no failed 0, reported 1, errors 0, minor 0
fired date,failed A→yes failed 1, reported 0, errors 0, minor 0
fired root,error A→yes failed 0, reported 0, errors 1, minor 0
failed A,failed B,error C,warning D,reported E→yes failed 2, reported 1, errors 1, minor 1";

#[derive(Clone, Copy)]
struct Counted<'a> {
    doc: &'a Doc<'a>,
    lines: &'a LineStarts,
    elements: Elements,
}

/// Whether the plain report, which begins with a line for each finding, ends so.
fn ends_plain(alloc: Global, report: &Validation<'_>, want: &str) -> Result<bool, AllocError> {
    let mut sink = MemSink::new(alloc, 2000)?;
    let written = report.write_plain(&mut sink).is_ok();
    let same = sink.bytes().trim_ascii_end().ends_with(want.as_bytes());
    drop(sink);
    Ok(written & same)
}

fn is_counted(alloc: Global, report: &Validation<'_>, wanted: &str) -> Result<bool, AllocError> {
    let (yes, end) = wanted.split_once(' ').unwrap_or((wanted, ""));
    let ends = ends_plain(alloc, report, end)?;
    Ok(ends & (report.has_findings() == (yes == "yes")))
}

impl Holds for Counted<'_> {
    fn holds(&self, alloc: Global, row: &'static str) -> Result<bool, Fail> {
        let (texts, wanted) = row.split_once('→').unwrap_or((row, ""));
        let findings = findings_of(alloc, &self.elements, texts)?;
        let reading = ReadingFindings {
            faults: &[],
            passed: &[],
            unread: &[],
            misplaced: &[],
        };
        let report = Validation::new(alloc, self.doc, self.lines, &reading, findings)?;
        let held = is_counted(alloc, &report, wanted);
        drop(report);
        Ok(held?)
    }
}

fn next<L: Ledger>(doc: &Doc<'_>, n: NodeId, steps: &mut Steps<L>) -> NodeId
    requires { n < length doc.now.nodes }
    ensures { result < length doc.now.nodes }
{
    match doc.next_node(n, steps) {
        Some(next) => next,
        None => n,
    }
}

/// The elements of the document, between which texts stand, and the attribute of the last one.
fn elements_of<L: Ledger>(doc: &Doc<'_>, steps: &mut Steps<L>) -> Elements
    ensures root { result.root < length doc.now.nodes }
    ensures date { result.date < length doc.now.nodes }
    ensures unknown { result.unknown < length doc.now.nodes }
    ensures code { result.code < length doc.now.nodes }
{
    let root = doc.root();
    let space = next(doc, root, steps);
    let date = next(doc, space, steps);
    let day = next(doc, date, steps);
    let space = next(doc, day, steps);
    let unknown = next(doc, space, steps);
    let code = next(doc, unknown, steps);
    Elements {
        root,
        date,
        unknown,
        code,
    }
}

fn expect_all<'a>(
    alloc: Global,
    doc: &'a Doc<'a>,
    lines: &'a LineStarts,
    elements: Elements,
) -> Result<(), Fail>
    requires root { elements.root < length doc.now.nodes }
    requires date { elements.date < length doc.now.nodes }
    requires unknown { elements.unknown < length doc.now.nodes }
    requires code { elements.code < length doc.now.nodes }
{
    let test = Counted {
        doc,
        lines,
        elements,
    };
    expect(reports_reading(alloc, doc, lines, elements)?, "reading")?;
    expect(reports_unread(alloc, doc, lines, elements)?, "unread")?;
    expect(reports_misplaced(alloc, doc, lines, elements)?, "misplaced")?;
    expect(reports_mixed(alloc, doc, lines, elements)?, "mixed")?;
    expect_rows(alloc, &test, COUNTS)
}

fn expect_by_steps<L: Ledger>(
    alloc: Global,
    doc: &Doc<'_>,
    lines: &LineStarts,
    ledger: Blank,
) -> Result<(), Fail>
    requires name { ledger.name ≡ L.name }
    requires parts { ledger.parts ≡ L.parts }
    requires some { 0 < ledger.parts }
{
    let mut steps = Steps::<L>::new(ledger);
    let elements = elements_of(doc, &mut steps);
    expect_all(alloc, doc, lines, elements)
}

/// The starts of the document's lines.
fn document_lines(alloc: Global) -> Result<LineStarts, AllocError> {
    let mut lines = LineStarts::new(alloc);
    match lines.take(DOCUMENT.as_bytes()) {
        Ok(()) => Ok(lines),
        Err(error) => {
            drop(lines);
            Err(error)
        }
    }
}

fn expect_on(alloc: Global, doc: &Doc<'_>) -> Result<(), Fail> {
    let lines = document_lines(alloc)?;
    let held = expect_by_steps::<Brand>(alloc, doc, &lines, Blank::new(1));
    drop(lines);
    held
}

fn expect_in(alloc: Global, bump: &Bump) -> Result<(), Fail> {
    let doc = document(alloc, bump, DOCUMENT)?;
    let held = expect_on(alloc, &doc);
    drop(doc);
    held
}

#[test]
fn validations_are_reported(rt: HostRuntime) -> Result<(), Fail> {
    let bump = Bump::new(rt.alloc());
    let held = expect_in(rt.alloc(), &bump);
    drop(bump);
    held
}
