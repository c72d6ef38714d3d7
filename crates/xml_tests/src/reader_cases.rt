//! Documents and faults read whole and in pieces.

use crate::texts::{bytes_of, halves};
use inv_base::Place;
use std::alloc::{AllocError, Global};
use std::test::Fail;
use test_rows::{Holds, expect, expect_rows};
use xml_events::{Events, NameId, NameTable};
use xml_profile::Reader;
use xml_state::{DOCUMENT_LIMITS, Limits, XmlFault};

/// What was told, a word an event: elements and attributes by the numbers of their names, a text's pieces behind one
/// another.
pub(crate) struct Recorder {
    alloc: Global,
    told: String,
    in_text: bool,
}

impl Drop for Recorder {
    fn drop(self) {
        let Recorder {
            alloc: _,
            told,
            in_text: _,
        } = self;
        drop(told);
    }
}

impl Events for Recorder {
    ghost taken = { λ _ _. Unit {0} };

    fn start(&mut self, name: NameId, place: Place) -> Result<(), AllocError> {
        self.in_text = false;
        let word = format!(in self.alloc; " +{}@{}", name.number(), place.byte)?;
        self.told.push_str(word.as_str())
    }

    fn attribute(&mut self, name: NameId, value: &str) -> Result<(), AllocError> {
        let word = format!(in self.alloc; " {}={value}", name.number())?;
        self.told.push_str(word.as_str())
    }

    fn text(&mut self, piece: &str, place: Place) -> Result<(), AllocError> {
        if !self.in_text {
            self.in_text = true;
            let word = format!(in self.alloc; " {}:", place.byte)?;
            self.told.push_str(word.as_str())?;
        }
        self.told.push_str(piece)
    }

    fn end(&mut self) -> Result<(), AllocError> {
        self.in_text = false;
        self.told.push_str(" -")
    }
}

/// One that was told nothing.
pub(crate) fn new_recorder(alloc: Global) -> Recorder {
    Recorder {
        alloc,
        told: String::new(alloc),
        in_text: false,
    }
}

fn feed_all(
    reader: &mut Reader,
    document: &[u8],
    size: usize,
    recorder: &mut Recorder,
) -> Result<(), XmlFault> {
    for piece in document.chunks(size.max(1)) {
        reader.feed(piece, recorder)?;
    }
    Ok(())
}

fn read(
    mut reader: Reader,
    document: &[u8],
    size: usize,
    recorder: &mut Recorder,
) -> Result<NameTable, XmlFault> {
    match feed_all(&mut reader, document, size, recorder) {
        Ok(()) => reader.finish(recorder),
        Err(fault) => {
            drop(reader);
            Err(fault)
        }
    }
}

/// How many names a document has, or its fault.
fn answer_in(
    alloc: Global,
    limits: Limits,
    document: &[u8],
    size: usize,
    recorder: &mut Recorder,
) -> Result<String, AllocError> {
    match read(Reader::new(alloc, limits)?, document, size, recorder) {
        Ok(names) => {
            let count = names.len();
            drop(names);
            format!(in alloc; "{count} names")
        }
        Err(fault) => format!(in alloc; "{:?} {}", fault.kind, fault.place.byte),
    }
}

fn outcome_in(
    alloc: Global,
    limits: Limits,
    document: &[u8],
    size: usize,
    recorder: &mut Recorder,
) -> Result<String, AllocError> {
    let mut answer = answer_in(alloc, limits, document, size, recorder)?;
    answer.push_str(recorder.told.as_str())?;
    Ok(answer)
}

/// How many names a document has, or its fault, and behind that what was told.
fn outcome(
    alloc: Global,
    limits: Limits,
    document: &[u8],
    size: usize,
) -> Result<String, AllocError> {
    let mut recorder = new_recorder(alloc);
    let found = outcome_in(alloc, limits, document, size, &mut recorder);
    drop(recorder);
    found
}

pub(crate) const AMPLE: Limits = DOCUMENT_LIMITS;

const SMALL: Limits = Limits {
    bytes: 32,
    nodes: 5,
    depth: 2,
    attributes: 2,
    name: 8,
    names: 3,
};

/// Documents with ample limits, and their outcomes.
const DOCUMENTS: &str = "\
<a><b>x</b></a> => 2 names +0@0 +1@3 6:x - -
<a/> => 1 names +0@0 -
<a x=\"1&amp;&#xA;\">t</a> => 2 names +0@0 1=1&%0A 19:t -
<a>x<!--c-->y</a> => 1 names +0@0 3:xy -
<a>x<![CDATA[]]>y</a> => 1 names +0@0 3:xy -
<a><![CDATA[]]>%0D%0A<![CDATA[<%0D]]>&#xD;</a> => 1 names +0@0 15:%0A<%0A%0D -
<a b=\"%09&#9;%0D%0A\"/> => 2 names +0@0 1= %09  -
<a x='&quot;\"' y=\"'\"/> => 3 names +0@0 1=\"\" 2=' -
<a xmlns=\"u\" b=\"\"><p:b xmlns:p=\"u\" p:b=\"\"/><c xmlns=\"\"/></a> => 4 names +0@0 1= +2@18 2= - +3@43 - -
%EF%BB%BF<?xml version='1.0' encoding=\"utf-8\"?> <a>%E2%82%AC</a> => 1 names +0@42 45:%E2%82%AC -
%20%0A<?pi x?><!-- c --><a>%20%20</a>%0A<!---->%20%09 => 1 names +0@20 23:%20%20 -
<a>%C3%A9%F0%9F%98%80&#x1F600;</a> => 1 names +0@0 3:%C3%A9%F0%9F%98%80%F0%9F%98%80 -
<a><b/>t<b/>u</a> => 2 names +0@0 +1@3 - 7:t +1@8 - 12:u -
<a>%0D%0D%0A%0A</a> => 1 names +0@0 3:%0A%0A%0A -
<a>]]&gt;]</a> => 1 names +0@0 3:]]>] -
 => NoRoot 0
%20%0A => NoRoot 2
%EF%BB%BF => NoRoot 3
%EF%BB => Truncated 2
<!---> => Truncated 6
<a>&#x20 => Truncated 8 +0@0
<a>&foo => Truncated 7 +0@0
<a>text => Truncated 7 +0@0 3:text
<a>%0D => Truncated 4 +0@0 3:%0A
<a>]] => Truncated 5 +0@0 3:]]
<a>%E2%82 => Truncated 5 +0@0
<a>%E2%28</a> => NotUtf8 3 +0@0
<a>%ED%A0%80</a> => NotUtf8 3 +0@0
<a>%EF%BF%BE</a> => BadChar 3 +0@0
<a%20%00/> => BadChar 0
<!DOCTYPE a><a/> => Doctype 0
<a/><?xml version=\"1.0\"?> => BadDeclaration 4 +0@0 -
<a>&#x20AC;]]></a> => BadMarkup 11 +0@0 3:%E2%82%AC
<a/>]]> => BadMarkup 4 +0@0 -
<a b=\"&x;\" c/> => BadMarkup 0
<!x => BadMarkup 0
<a b=\"&#xD800;\"/> => BadReference 0
<a>&foo; => BadReference 3 +0@0
x<a/> => TextOutside 0
<a/>%20%0Ax => TextOutside 6 +0@0 -
<a/>&#x20; => TextOutside 4 +0@0 -
<a/>] => TextOutside 4 +0@0 -
<a/>]] => TextOutside 4 +0@0 -
<p:a xmlns:p=\"u\" xmlns:q=\"u\"></q:a> => Mismatched 29 +0@0
<a><b></a> => Mismatched 6 +0@0 +1@3
<a/><b/> => SecondRoot 4 +0@0 -
<a xmlns:p=\"\"/> => BadNamespace 0
<a p:b=\"\" p:b=\"\"/> => UndeclaredPrefix 0
<a xmlns:p=\"u\" xmlns:q=\"u\" p:x=\"\" q:x=\"\"/> => DuplicateAttribute 0";

/// The same with small limits.
const BEYOND: &str = "\
<a b=\"\" c=\"\" xmlns=\"\"/> => TooManyAttributes 0
<abcdefghi> => NameTooLong 0
<a><b><c> => TooDeep 6 +0@0 +1@3
<a b=\"\"><a c=\"\"/><d/> => TooManyNames 17 +0@0 1= +0@8 2= -
<a b=\"\"><a/>x<!---->y<a/> => TooManyNodes 21 +0@0 1= +0@8 - 12:xy
<a b=\"\"><a/><a/>x => TooManyNodes 16 +0@0 1= +0@8 - +0@12 -
<a/>                           ]x => TextOutside 31 +0@0 -
<a/>                           %0D%0A => TooLong 32 +0@0 -
<a>xxxxxxxxxxxxxxxxxxxxxxxxxxxxxy => TooLong 32 +0@0 3:xxxxxxxxxxxxxxxxxxxxxxxxxxxxx
<a>xxxxxxxxxxxxxxxxxxxxxxxxxxxx%C3%A9 => TooLong 32 +0@0 3:xxxxxxxxxxxxxxxxxxxxxxxxxxxx
<a>xxxxxxxxxxxxxxxxxxxxxxxxxxxx]] => TooLong 32 +0@0 3:xxxxxxxxxxxxxxxxxxxxxxxxxxxx]
<a>xxxxxxxxxxxxxxxxxxxxxxxxxxxx]]> => TooLong 32 +0@0 3:xxxxxxxxxxxxxxxxxxxxxxxxxxxx
<!--xxxxxxxxxxxxxxxxxxxxxxxxxxxxx => TooLong 32
<a>xxxxxxxxxxxxxxxxxxxxxxxxxxxxx => Truncated 32 +0@0 3:xxxxxxxxxxxxxxxxxxxxxxxxxxxxx";

/// Lengths of pieces.
pub(crate) const SIZES: [usize; 5] = [65_536, 1, 2, 3, 5];

/// Whether a document has that outcome, in whatever pieces it is read.
fn is_told(
    alloc: Global,
    limits: Limits,
    document: &[u8],
    want: &[u8],
) -> Result<bool, AllocError> {
    let mut told = true;
    for size in SIZES {
        told &= outcome(alloc, limits, document, size)?.as_bytes() == want;
    }
    Ok(told)
}

#[derive(Clone, Copy)]
struct Told {
    limits: Limits,
}

impl Holds for Told {
    fn holds(&self, alloc: Global, row: &'static str) -> Result<bool, Fail> {
        let (written, want) = halves(row);
        let document = bytes_of(alloc, written)?;
        let want = bytes_of(alloc, want)?;
        Ok(is_told(alloc, self.limits, &document, &want)?)
    }
}

#[test]
fn documents_are_told(rt: HostRuntime) -> Result<(), Fail> {
    expect_rows(rt.alloc(), &Told { limits: AMPLE }, DOCUMENTS)
}

#[test]
fn limits_are_kept(rt: HostRuntime) -> Result<(), Fail> {
    expect_rows(rt.alloc(), &Told { limits: SMALL }, BEYOND)
}

fn push_times(document: &mut String, text: &str, times: u32) -> Result<(), AllocError> {
    for _ in 0..times {
        document.push_str(text)?;
    }
    Ok(())
}

fn push_large(document: &mut String) -> Result<(), AllocError> {
    document.push_str("<a>")?;
    let child = "<b c='1'>text ] \u{E9}</b>\r\n<!-- a comment -->";
    push_times(document, child, 3_000)?;
    document.push_str("<!--")?;
    push_times(document, "0123456789", 20_000)?;
    document.push_str("--></a>")
}

fn is_told_the_same(alloc: Global, document: &[u8]) -> Result<bool, AllocError> {
    let whole = outcome(alloc, AMPLE, document, 1_000_000)?;
    let mut same = true;
    for size in [1, 7, 4_096, 65_536] {
        same &= outcome(alloc, AMPLE, document, size)?.as_str() == whole.as_str();
    }
    Ok(same)
}

#[test]
fn a_large_document_is_told_the_same(rt: HostRuntime) -> Result<(), Fail> {
    let mut document = String::new(rt.alloc());
    push_large(&mut document)?;
    expect(is_told_the_same(rt.alloc(), document.as_bytes())?, "large")
}

fn are_fed(reader: &mut Reader, recorder: &mut Recorder) -> bool {
    let mut fed = true;
    for piece in [b"".as_slice(), b"<a>\r", b"]]", b""] {
        fed &= reader.feed(piece, recorder).is_ok();
    }
    fed
}

/// Whether the fault is answered at its piece, at the next one, and at the end.
fn answers_again(mut reader: Reader, recorder: &mut Recorder) -> bool {
    let fed = are_fed(&mut reader, recorder);
    let first = reader.feed(b">", recorder);
    let again = reader.feed(b"</a>", recorder) == first;
    match reader.finish(recorder) {
        Ok(names) => {
            drop(names);
            false
        }
        Err(last) => fed & again & (first == Err(last)),
    }
}

#[test]
fn a_fault_is_answered_again(rt: HostRuntime) -> Result<(), Fail> {
    let reader = Reader::new(rt.alloc(), AMPLE)?;
    let mut recorder = new_recorder(rt.alloc());
    let answered = answers_again(reader, &mut recorder);
    let told = recorder.told.as_str() == " +0@0 3:\n";
    drop(recorder);
    expect(answered & told, "again")
}

/// The namespace names and local names of a document, in the order in which they are first seen.
const NAMES: &str = "\
u a
 b
v b";

/// Whether the name of a row is the one of that number.
fn is_found(alloc: Global, names: &NameTable, k: usize, row: &str) -> Result<bool, AllocError> {
    let (uri, local) = row.split_once(' ').unwrap_or((row, ""));
    Ok(match names.find(alloc, uri, local)? {
        Some(found) => found.number() as usize == k,
        None => false,
    })
}

fn expect_names(alloc: Global, names: &NameTable) -> Result<(), Fail> {
    for (k, row) in NAMES.lines().enumerate() {
        expect(is_found(alloc, names, k, row)?, row)?;
    }
    expect(names.find(alloc, "u", "b")?.is_none(), "u b")?;
    expect(names.find(alloc, "", "b v")?.is_none(), "b v")?;
    expect(names.len() == 3, "length")
}

fn names_of(
    alloc: Global,
    reader: Reader,
    document: &[u8],
    size: usize,
) -> Result<NameTable, XmlFault> {
    let mut recorder = new_recorder(alloc);
    let names = read(reader, document, size, &mut recorder);
    drop(recorder);
    names
}

#[test]
fn names_are_found(rt: HostRuntime) -> Result<(), Fail> {
    let document = b"<a xmlns='u' xmlns:p='v' b='' p:b=''/>";
    let reader = Reader::new(rt.alloc(), AMPLE)?;
    let names = names_of(rt.alloc(), reader, document, 4)?;
    let found = expect_names(rt.alloc(), &names);
    drop(names);
    found
}
