//! Reports, compared with texts that were written by hand.

use crate::documents::document;
use bumpalo::Bump;
use inv_base::{MemSink, Str, Txt};
use node_arena::{Doc, NodeId};
use schematron_findings::{Finding, FindingKind, Findings, Lent, Level, Line, level_of};
use std::alloc::{AllocError, Global};
use std::test::Fail;
use svrl_report::{write_plain, write_svrl};
use test_rows::expect;
use xpath_items::DynError;

/// One file with one failed assertion.
const ONE_PLAIN: &str = "\
failed B /*:a[namespace-uri()=''][1] \"bad\"
failed 1, reported 0, errors 0, minor 0
";

const ONE_SVRL: &str = "\
<?xml version=\"1.0\" encoding=\"UTF-8\"?>
<svrl:schematron-output xmlns:svrl=\"http://purl.oclc.org/dsdl/svrl\"><svrl:active-pattern/><svrl:fired-rule context=\"a\"/>\
<svrl:active-pattern/><svrl:fired-rule context=\"*\"/><svrl:failed-assert test=\"false()\" \
location=\"/*:a[namespace-uri()=''][1]\" id=\"B\"><svrl:text>bad</svrl:text></svrl:failed-assert></svrl:schematron-output>
";

/// Behind it a second file with findings of each other sort.
const TWO_PLAIN: &str = "\
failed B /*:a[namespace-uri()=''][1] \"bad\"
reported - / \"\\\"a\\\" & b\"
error FORG0001 C / \"\"
warning D / \"w\"
information E / \"i\"
failed 1, reported 1, errors 1, minor 2
";

const TWO_SVRL_END: &str = "\
<svrl:active-pattern id=\"P\"/><svrl:fired-rule context=\"/\"/>\
<svrl:successful-report test=\"t\" location=\"/\" flag=\"x\"><svrl:text>\"a\" &amp; b</svrl:text></svrl:successful-report>\
<svrl:failed-assert test=\"t\" location=\"/\" id=\"C\" flag=\"FORG0001\" role=\"error\"><svrl:text/></svrl:failed-assert>\
<svrl:failed-assert test=\"t\" location=\"/\" id=\"D\" flag=\"warning\"><svrl:text>w</svrl:text></svrl:failed-assert>\
<svrl:failed-assert test=\"t\" location=\"/\" id=\"E\" role=\"information\"><svrl:text>i</svrl:text></svrl:failed-assert>\
</svrl:schematron-output>
";

/// A label that is lent, if there is one.
fn lent_label(label: Option<&str>) -> Option<Lent<'_>> {
    match label {
        Some(label) => Some(Lent::of(label)),
        None => None,
    }
}

/// The same, as an identifier.
fn lent_id(id: Option<&str>) -> Option<Str<'_>> {
    match id {
        Some(id) => Some(Str::lent(id)),
        None => None,
    }
}

/// Adds what a pattern begins with: the pattern with its id, and the first node that a rule judges.
fn push_pattern<'r>(
    findings: &mut Findings<'r>,
    id: Option<&'r str>,
    node: NodeId,
    context: &'r str,
) -> Result<(), AllocError> {
    findings.push(Line::Pattern { id: lent_label(id) })?;
    findings.push(Line::Fired {
        node,
        rule: 0,
        context: Lent::of(context),
    })
}

/// A finding with no mark.
fn finding<'r>(
    alloc: Global,
    outcome: FindingKind,
    test: &'r str,
    location: &str,
    message: &str,
) -> Result<Finding<'r>, AllocError> {
    let location = Txt::of(alloc, location)?;
    let message = Txt::of(alloc, message)?;
    Ok(Finding {
        outcome,
        level: Level::Fatal,
        test: Lent::of(test),
        location,
        message,
        id: None,
        flag: None,
        role: None,
    })
}

/// The marks of an assertion.
#[derive(Clone, Copy)]
struct Marks {
    id: Option<&'static str>,
    flag: Option<&'static str>,
    role: Option<&'static str>,
    level: Level,
}

const BARE: Marks = Marks {
    id: None,
    flag: None,
    role: None,
    level: Level::Fatal,
};

/// Adds a finding with its marks.
fn push_marked<'r>(
    findings: &mut Findings<'r>,
    marks: Marks,
    found: Finding<'r>,
) -> Result<(), AllocError> {
    let mut found = found;
    found.level = marks.level;
    found.id = lent_id(marks.id);
    found.flag = lent_label(marks.flag);
    found.role = lent_label(marks.role);
    findings.push(Line::Found(found))
}

/// Adds a finding at the document, with its marks.
fn push_found(
    alloc: Global,
    findings: &mut Findings<'_>,
    outcome: FindingKind,
    message: &str,
    marks: Marks,
) -> Result<(), AllocError> {
    let found = finding(alloc, outcome, "t", "/", message)?;
    push_marked(findings, marks, found)
}

fn push_first(alloc: Global, findings: &mut Findings<'_>, node: NodeId) -> Result<(), AllocError> {
    push_pattern(findings, None, node, "a")?;
    push_pattern(findings, None, node, "*")?;
    let location = "/*:a[namespace-uri()=''][1]";
    let found = finding(alloc, FindingKind::Failed, "false()", location, "bad")?;
    let marks = Marks {
        id: Some("B"),
        ..BARE
    };
    push_marked(findings, marks, found)
}

const REPORTED: Marks = Marks {
    flag: Some("x"),
    ..BARE
};

/// An error, whatever flag its assertion has.
fn error_marks() -> Marks {
    Marks {
        id: Some("C"),
        flag: Some("warning"),
        level: level_of(Some("warning"), None),
        ..BARE
    }
}

fn warning_marks() -> Marks {
    Marks {
        id: Some("D"),
        flag: Some("warning"),
        level: level_of(Some("warning"), Some("information")),
        ..BARE
    }
}

fn information_marks() -> Marks {
    Marks {
        id: Some("E"),
        role: Some("information"),
        level: level_of(Some("Warning"), Some("information")),
        ..BARE
    }
}

fn push_second(alloc: Global, findings: &mut Findings<'_>, node: NodeId) -> Result<(), AllocError> {
    let error = FindingKind::Error(DynError::FORG0001);
    let failed = FindingKind::Failed;
    let text = "\"a\" & b";
    push_pattern(findings, Some("P"), node, "/")?;
    push_found(alloc, findings, FindingKind::Reported, text, REPORTED)?;
    push_found(alloc, findings, error, "", error_marks())?;
    push_found(alloc, findings, failed, "w", warning_marks())?;
    push_found(alloc, findings, failed, "i", information_marks())
}

/// Whether the plain report is this.
fn is_plain(alloc: Global, files: &[Findings<'_>], want: &str) -> Result<bool, AllocError> {
    let mut sink = MemSink::new(alloc, 1000)?;
    let written = write_plain(files, &mut sink).is_ok();
    let same = sink.bytes() == want.as_bytes();
    drop(sink);
    Ok(written & same)
}

/// Whether the report in SVRL ends so.
fn ends_svrl(alloc: Global, files: &[Findings<'_>], want: &str) -> Result<bool, AllocError> {
    let mut sink = MemSink::new(alloc, 2000)?;
    let written = write_svrl(files, &mut sink).is_ok();
    let same = sink.bytes().ends_with(want.as_bytes());
    drop(sink);
    Ok(written & same)
}

/// Whether the plain report doesn't fit into so many bytes, and fills no more.
fn overflows(alloc: Global, files: &[Findings<'_>], room: usize) -> Result<bool, AllocError> {
    let mut sink = MemSink::new(alloc, room)?;
    let failed = write_plain(files, &mut sink).is_err();
    let fills = sink.bytes().len() <= room;
    drop(sink);
    Ok(failed & fills)
}

/// The findings in the first of two files, and in both.
fn expect_reports(alloc: Global, files: &[Findings<'_>]) -> Result<(), Fail> {
    let one = files.get(..1).ok_or("files")?;
    expect(is_plain(alloc, one, ONE_PLAIN)?, "one plain")?;
    expect(ends_svrl(alloc, one, ONE_SVRL)?, "one svrl")?;
    expect(is_plain(alloc, files, TWO_PLAIN)?, "two plain")?;
    expect(ends_svrl(alloc, files, TWO_SVRL_END)?, "two svrl")?;
    expect(overflows(alloc, files, 60)?, "room")
}

/// The findings, where all of them were pushed.
fn filled<'r>(
    findings: Findings<'r>,
    pushed: Result<(), AllocError>,
) -> Result<Findings<'r>, AllocError> {
    match pushed {
        Ok(()) => Ok(findings),
        Err(error) => {
            drop(findings);
            Err(error)
        }
    }
}

fn first_file(alloc: Global, node: NodeId) -> Result<Findings<'static>, AllocError> {
    let mut findings = Findings::new(alloc);
    let pushed = push_first(alloc, &mut findings, node);
    filled(findings, pushed)
}

fn second_file(alloc: Global, node: NodeId) -> Result<Findings<'static>, AllocError> {
    let mut findings = Findings::new(alloc);
    let pushed = push_second(alloc, &mut findings, node);
    filled(findings, pushed)
}

fn both_files(alloc: Global, doc: &Doc<'_>) -> Result<Vec<Findings<'static>>, AllocError> {
    let mut files = Vec::new(alloc);
    files.push(first_file(alloc, doc.root())?)?;
    files.push(second_file(alloc, doc.document())?)?;
    Ok(files)
}

fn expect_reports_on(alloc: Global, doc: &Doc<'_>) -> Result<(), Fail> {
    let files = both_files(alloc, doc)?;
    expect_reports(alloc, &files)
}

fn expect_reports_in(alloc: Global, bump: &Bump) -> Result<(), Fail> {
    let doc = document(alloc, bump, "<a/>")?;
    let held = expect_reports_on(alloc, &doc);
    drop(doc);
    held
}

#[test]
fn reports_are_written(rt: HostRuntime) -> Result<(), Fail> {
    let bump = Bump::new(rt.alloc());
    let held = expect_reports_in(rt.alloc(), &bump);
    drop(bump);
    held
}
