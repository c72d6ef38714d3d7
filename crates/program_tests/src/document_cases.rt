//! The outlines and faults of documents, whole and in pieces.

use crate::cases::{
    Case, answer_to, answers, case_of, failing_at, in_pieces, printing, telling_fault, with_file,
};
use crate::texts::{columns, repeated, spelled};
use invoice_cli::Status;
use std::alloc::{AllocError, Global};
use std::test::Fail;
use test_rows::{Holds, expect, expect_rows};

/// The outline of a document.
fn outline(document: &[u8]) -> Case<'_> {
    case_of("outline f", document)
}

/// The case, in which the document is refused by such a fault.
fn refused<'a>(case: Case<'a>, fault: &'a str) -> Case<'a> {
    Case {
        err: ["einv: f: ", fault, "\n"],
        ..case
    }
}

/// Whether a document is answered so, read whole, and in pieces of one byte and more.
fn answers_in_pieces(alloc: Global, case: &Case<'_>, status: Status) -> Result<bool, AllocError> {
    let mut held = true;
    for piece in [1_000_000, 1, 2, 3, 5, 7] {
        held &= answers(alloc, &in_pieces(case, piece), status)?;
    }
    Ok(held)
}

/// Documents and their outlines, with marks for white space as `spelled` has them.
const OUTLINES: &str = r#"<a><b>x</b></a>→a␊  b␊    "x"␊
<a></a>→a␊
␊ ␉␍<a />␍␊␊→a␊
<a>␊ <b/> </a>→a␊  "\n "␊  b␊  " "␊
<a><b><c/></b><b>1␊2</b></a>→a␊  b␊    c␊  b␊    "1\n2"␊
<a>say "no"␉\ 'é' €</a>→a␊  "say \"no\"\t\\ 'é' €"␊
<Größe-.0_Z>]]] > ]]x</Größe-.0_Z>→Größe-.0_Z␊  "]]] > ]]x"␊
<a x="1&amp;&#xA;">t</a>→a␊  @x="1&\n"␊  "t"␊
<a x = '"' y="␉␍␊'&#9;"><b z=""/></a>→a␊  @x="\""␊  @y="  '\t"␊  b␊    @z=""␊
<a>x<!--c-->y<?p q?>z</a>→a␊  "xyz"␊
<a>1<![CDATA[<&]]]]>2<![CDATA[]]></a>→a␊  "1<&]]2"␊
<a>&#65;&#x20AC;&lt;&gt;&quot;&apos;&#x0000000041;</a>→a␊  "A€<>\"'A"␊
<a>1␍␊2␍3␊␍4␍<!----></a>→a␊  "1\n2\n3\n\n4\n"␊
␣<?xml version="1.0" encoding='utf-8' standalone = "no"?><!--x--><a/><?y?>→a␊
<?xml version='1.0'?>␊<a/>→a␊
<a xmlns="u"/>→{u}a␊
<p:a xmlns:p="u" p:x="1" x="2"><b xmlns="v"><p:c/></b><b/></p:a>→{u}a␊  @{u}x="1"␊  @x="2"␊  {v}b␊    {u}c␊  b␊
<a xml:lang="de"/>→a␊  @{http://www.w3.org/XML/1998/namespace}lang="de"␊"#;

fn has_outline(alloc: Global, row: &str) -> Result<bool, AllocError> {
    let [document, lines, ..] = columns(row, '→');
    let case = printing(outline(document.as_bytes()), lines);
    answers_in_pieces(alloc, &case, Status::Done)
}

struct Outlines;

impl Holds for Outlines {
    fn holds(&self, alloc: Global, row: &'static str) -> Result<bool, Fail> {
        let text = spelled(alloc, row)?;
        Ok(has_outline(alloc, text.as_str())?)
    }
}

#[test]
fn documents_have_outlines(rt: HostRuntime) -> Result<(), Fail> {
    expect_rows(rt.alloc(), &Outlines, OUTLINES)
}

/// Documents and their first faults, with marks for white space as `spelled` has them.
const FAULTS: &str = r#"→NoRoot at 0
␊ <!--x-->→NoRoot at 10
<a>&#x20→Truncated at 8
<a><b></b→Truncated at 9
<a>]]→Truncated at 5
<a b="c>→Truncated at 8
<!--→Truncated at 4
<a></b>→Mismatched at 3
<a/></a>→Mismatched at 4
<a/><b/>→SecondRoot at 4
<a/>x→TextOutside at 4
<a/>&#32;→TextOutside at 4
␣␣<a/>→TextOutside at 3
<!DOCTYPE a><a/>→Doctype at 0
<a xmlns:p="u" xmlns:q="u" p:x="" q:x=""/>→DuplicateAttribute at 0
<a>&#x20AC;]]></a>→BadMarkup at 11
<a x=1/>→BadMarkup at 0
<a><!-- -- --></a>→BadMarkup at 3
<a><b x="&y;"/></a>→BadReference at 3
<a>&#0;</a>→BadReference at 3
<?xml version="1.1"?><a/>→BadDeclaration at 0
<a xmlns:xml="u"/>→BadNamespace at 0
<a>␊<p:b/></a>→UndeclaredPrefix at 4
<a>äö</b>&→Mismatched at 7
<a>x￾</a>→BadChar at 4"#;

fn has_fault(alloc: Global, row: &str) -> Result<bool, AllocError> {
    let [document, fault, ..] = columns(row, '→');
    let case = refused(outline(document.as_bytes()), fault);
    answers_in_pieces(alloc, &case, Status::DocumentRefused)
}

struct Faults;

impl Holds for Faults {
    fn holds(&self, alloc: Global, row: &'static str) -> Result<bool, Fail> {
        let text = spelled(alloc, row)?;
        Ok(has_fault(alloc, text.as_str())?)
    }
}

#[test]
fn other_documents_are_refused(rt: HostRuntime) -> Result<(), Fail> {
    expect_rows(rt.alloc(), &Faults, FAULTS)
}

/// Whether the document is refused by such a fault at a place.
fn is_refused_at(
    alloc: Global,
    bytes: &[u8],
    kind: &str,
    place: usize,
) -> Result<bool, AllocError> {
    let fault = format!(in alloc; "{kind} at {place}")?;
    let case = refused(outline(bytes), fault.as_str());
    answers(alloc, &case, Status::DocumentRefused)
}

/// Whether each proper front of a document is cut off.
fn are_cut_off(alloc: Global, document: &[u8]) -> Result<bool, AllocError> {
    let mut held = true;
    for end in 1..document.len() {
        held &= is_refused_at(alloc, &document[..end], "Truncated", end)?;
    }
    Ok(held)
}

/// Each proper front of a document, and documents that aren't in UTF-8.
#[test]
fn fronts_and_other_bytes_are_refused(rt: HostRuntime) -> Result<(), Fail> {
    let alloc = rt.alloc();
    let document = "<a xmlns:p='u'><!--c--><p:b x='1'>é&amp;<![CDATA[]]></p:b></a>";
    expect(are_cut_off(alloc, document.as_bytes())?, "front")?;
    expect(is_refused_at(alloc, b"<a>x\xFF</a>", "NotUtf8", 4)?, "FF")?;
    expect(is_refused_at(alloc, b"<a>\xC0\x80", "NotUtf8", 3)?, "C0 80")
}

/// Documents at a limit and one past it. Of each row a front, a piece with the number of its time for `#`, how often it
/// comes, a back, and the fault, or nothing where there is none.
const LIMITS: &str = r#"|<a>|100||Truncated at 300
|<a>|101||TooDeep at 300
<r>|<e/>|3999999|</r>|TooManyNodes at 15999995
<r>|<e/>|3999997|<e x=""/></r>|TooManyNodes at 15999991
<a| x#=""|64|/>|
<a| x#=""|65|/>|TooManyAttributes at 0
<|n|200|/>|
<|n|201|/>|NameTooLong at 0
<a| |262141|>|Truncated at 262144
<a| |262142|>|TagTooLong at 0
<r>|<n#/>|9999|</r>|
<r>|<n#/>|10000|</r>|TooManyNames at 78885
<a><!--|x|1000000|--></a>|"#;

/// Whether a row is answered so, with its piece so often as it says.
fn is_limit(alloc: Global, row: &str, inside: &str) -> Result<bool, AllocError> {
    let [front, _, _, back, fault] = columns(row, '|');
    let case = Case {
        room: 1_000_000,
        ..with_file(outline(b""), front, inside, back)
    };
    if fault.is_empty() {
        Ok(answer_to(alloc, &case)?.status == Status::Done)
    } else {
        answers(alloc, &refused(case, fault), Status::DocumentRefused)
    }
}

struct Limits;

impl Holds for Limits {
    fn holds(&self, alloc: Global, row: &'static str) -> Result<bool, Fail> {
        let [_, piece, times, ..] = columns(row, '|');
        let inside = repeated(alloc, piece, times.parse().unwrap_or(0))?;
        Ok(is_limit(alloc, row, inside.as_str())?)
    }
}

#[test]
fn limits_are_kept(rt: HostRuntime) -> Result<(), Fail> {
    expect_rows(rt.alloc(), &Limits, LIMITS)
}

/// Whether a document that isn't at its end has such a fault.
fn has_fault_behind(
    alloc: Global,
    inside: &str,
    back: &str,
    fault: &str,
) -> Result<bool, AllocError> {
    let case = Case {
        piece: 100_000,
        ..with_file(outline(b""), "<a>", inside, back)
    };
    answers(alloc, &refused(case, fault), Status::DocumentRefused)
}

fn keeps_limit(alloc: Global, inside: &str) -> Result<bool, AllocError> {
    let last = has_fault_behind(alloc, inside, "x", "Truncated at 67108864")?;
    let more = has_fault_behind(alloc, inside, "xx", "TooLong at 67108864")?;
    Ok(last & more)
}

/// As many bytes as a document may have, 3 and 67,108,860 and 1, and one more.
#[test]
fn the_limit_on_bytes_is_kept(rt: HostRuntime) -> Result<(), Fail> {
    let inside = repeated(rt.alloc(), "xxxxxxxxxxxxxxxxxxxx", 3_355_443)?;
    let kept = keeps_limit(rt.alloc(), inside.as_str());
    drop(inside);
    expect(kept?, "67108864")
}

/// A document with a fault at its 3rd byte, told at its 7th, and much behind it. With so many bytes a read, no call
/// follows the one of this number: where it fails that is told, and where the next one is to fail nothing is.
fn is_last_call(alloc: Global, behind: &str, piece: usize, call: u64) -> Result<bool, AllocError> {
    let whole = with_file(outline(b""), "<a></b>", behind, "");
    let case = failing_at(&in_pieces(&whole, piece), call);
    let later = failing_at(&case, call.saturating_add(1));
    let told = answers(alloc, &telling_fault(case, "f"), Status::ReadFault)?;
    let later = refused(later, "Mismatched at 3");
    Ok(told & answers(alloc, &later, Status::DocumentRefused)?)
}

fn are_last_calls(alloc: Global, behind: &str) -> Result<bool, AllocError> {
    let single = is_last_call(alloc, behind, 1, 8)?;
    let seven = is_last_call(alloc, behind, 7, 2)?;
    Ok(single & seven & is_last_call(alloc, behind, 100_000, 2)?)
}

/// Behind a fault that is settled the rest of the file isn't read. The 1st call opens the file.
#[test]
fn the_rest_is_not_read(rt: HostRuntime) -> Result<(), Fail> {
    let behind = repeated(rt.alloc(), "x", 200_000)?;
    let held = are_last_calls(rt.alloc(), behind.as_str());
    drop(behind);
    expect(held?, "last call")
}
