//! Rule files that take parts of others.
ghost use Rattle.std.specs.Prelude.{◌≡◌, ◌<◌};
ghost use Rattle.xml_document.specs.Walking.{StandsIn};

use bumpalo::Bump;
use inv_base::{MemShelf, Place, Steps};
use rule_library::{Library, LoadFault, load};
use std::alloc::{AllocError, Global};
use std::marker::Brand;
use std::sync::ledger::{Blank, Ledger};
use std::test::Fail;
use test_rows::{Shown, expect, expect_shown};
use xml_document::Walk;

/// What `~` stands for in a file.
const NAMESPACE: &str = " xmlns='http://purl.oclc.org/dsdl/schematron'";

/// Files by their names, of which the first is loaded; and each node of what is joined, with its level, its name and its
/// text, and the file and the place where it stands, or why nothing is: kind, file and place.
const LIBRARIES: &str = "\
r <schema~><include href='p'/></schema> | p <pattern~><include href='q'/></pattern> | q <rule~ context='a'/> => 0@r:0 1schema@r:0 2pattern@p:0 3rule@q:0 4context=a@q:0
r <schema~><include href='p'/>x<include href='p'/></schema> | p <pattern~/> => 0@r:0 1schema@r:0 2pattern@p:0 2=x@r:72 2pattern@p:0
r <schema~><pattern><rule><extends href='q'/></rule></pattern></schema> | q <rule~ context='b'><let/></rule> => 0@r:0 1schema@r:0 2pattern@r:53 3rule@r:62 4let@q:63
r <schema~>a<extends href='p'/>c</schema> | p <schema~>b</schema> => 0@r:0 1schema@r:0 2=abc@r:53
r <schema~><pattern><rule><extends rule='x'/></rule></pattern></schema> => 0@r:0 1schema@r:0 2pattern@r:53 3rule@r:62 4extends@r:68 5rule=x@r:68
r <schema~><title><include href='p'/></title></schema> => 0@r:0 1schema@r:0 2title@r:53 3include@r:60 4href=p@r:60
r <schema~><include href='p'/></schema> | p <include~ href='q'/> => 0@r:0 1schema@r:0 2include@p:0 3href=q@p:0
r <schema~><pattern><rule><extends rule='x' href='q'/></rule></pattern></schema> => BadHref r 68
r <schema~><include href=''/></schema> => BadHref r 53
r <schema~><include href='p#a'/></schema> => BadHref r 53
r <schema~><include/></schema> => BadHref r 53
r <schema~><include href='r'/></schema> => IncludeCycle r 53
r <schema~><include href='p'/></schema> | p <pattern~><include href='r'/></pattern> => IncludeCycle p 54
r <schema~><pattern><extends href='q'/></pattern></schema> | q <rule~ context='b'/> => NotSame r 62
r <schema~><include href='p'/></schema> => Read p 0
r <schema~><include href='p'/></schema> | p <pattern~></rule> => Xml(Mismatched) p 54
s <schema~/> => Read r 0";

/// A file's content, with the namespace put in.
fn written(alloc: Global, content: &str) -> Result<String, AllocError> {
    let mut text = String::new(alloc);
    'pieces: for (k, piece) in content.split('~').enumerate() {
        if 0 < k {
            text.push_str(NAMESPACE)?;
        }
        text.push_str(piece)?;
    }
    Ok(text)
}

fn put_content(
    alloc: Global,
    shelf: &mut MemShelf,
    name: &str,
    content: &str,
) -> Result<(), AllocError> {
    let text = written(alloc, content)?;
    shelf.add(name, text.as_str().as_bytes())
}

/// Puts a file on the shelf: its name, a space and its content.
fn put_file(alloc: Global, shelf: &mut MemShelf, file: &str) -> Result<(), AllocError> {
    match file.split_once(' ') {
        Some((name, content)) => put_content(alloc, shelf, name, content),
        None => Ok(()),
    }
}

fn put_files(alloc: Global, shelf: &mut MemShelf, files: &str) -> Result<(), AllocError> {
    'files: for file in files.split('|') {
        put_file(alloc, shelf, file.trim())?;
    }
    Ok(())
}

fn push_place(
    shown: &mut String,
    alloc: Global,
    file: &str,
    place: Place,
) -> Result<(), AllocError> {
    shown.push_str(format!(in alloc; "@{file}:{}", place.byte)?.as_str())
}

/// The file of a place, and the place in it.
fn push_home(
    shown: &mut String,
    alloc: Global,
    library: &Library<'_>,
    place: Place,
) -> Result<(), AllocError> {
    match library.home(place) {
        Some((number, place)) => {
            push_place(
                shown,
                alloc,
                library.file(number).unwrap_or("no file"),
                place,
            )
        }
        None => shown.push_str("@no home"),
    }
}

/// A node, with its level.
fn push_node(
    shown: &mut String,
    alloc: Global,
    library: &Library<'_>,
    at: Walk,
) -> Result<(), AllocError>
    requires { StandsIn library.now.document at }
{
    let doc = library.doc();
    let name = match doc.name(at.node) {
        Some(name) => doc.names().local(name),
        None => "",
    };
    let text = doc.text(at.node);
    let sign = if text.is_empty() { "" } else { "=" };
    shown.push_str(format!(in alloc; "{}{name}{sign}{text}", at.level)?.as_str())?;
    push_home(shown, alloc, library, doc.place(at.node))
}

/// Each node that a walk meets.
fn push_nodes<L: Ledger>(
    shown: &mut String,
    alloc: Global,
    library: &Library<'_>,
    ledger: Blank,
) -> Result<(), AllocError>
    requires name { ledger.name ≡ L.name }
    requires parts { ledger.parts ≡ L.parts }
    requires some { 0 < ledger.parts }
{
    let mut steps = Steps::<L>::new(ledger);
    let mut at = Walk::begin(library.doc());
    'nodes: loop {
        push_node(shown, alloc, library, at)?;
        match at.next(library.doc(), &mut steps) {
            Some(next) => at = next,
            None => return Ok(()),
        }
        shown.push_str(" ")?;
    }
}

fn push_fault(shown: &mut String, alloc: Global, fault: &LoadFault) -> Result<(), AllocError> {
    let file = match &fault.file {
        Some(file) => file.as_str(),
        None => "no file",
    };
    let line = format!(in alloc; "{:?} {file} {}", fault.kind, fault.place.byte)?;
    shown.push_str(line.as_str())
}

/// What loading a rule file answers.
fn push_loaded(
    shown: &mut String,
    alloc: Global,
    bump: &Bump,
    shelf: &mut MemShelf,
) -> Result<(), AllocError> {
    match load(alloc, bump, shelf, "r") {
        Ok(library) => {
            let pushed = push_nodes::<Brand>(shown, alloc, &library, Blank::new(1));
            drop(library);
            pushed
        }
        Err(fault) => {
            let pushed = push_fault(shown, alloc, &fault);
            drop(fault);
            pushed
        }
    }
}

fn loaded(alloc: Global, shelf: &mut MemShelf) -> Result<String, AllocError> {
    let bump = Bump::new(alloc);
    let mut shown = String::new(alloc);
    let pushed = push_loaded(&mut shown, alloc, &bump, shelf);
    drop(bump);
    pushed?;
    Ok(shown)
}

struct Libraries;

impl Shown for Libraries {
    fn shown(&self, alloc: Global, given: &'static str) -> Result<String, Fail> {
        let mut shelf = MemShelf::new(alloc);
        put_files(alloc, &mut shelf, given)?;
        Ok(loaded(alloc, &mut shelf)?)
    }
}

#[test]
fn parts_are_put_in(rt: HostRuntime) -> Result<(), Fail> {
    expect_shown(rt.alloc(), &Libraries, " => ", LIBRARIES)
}

/// The first call of the shelf that fails, and what is told then: opening the rule file, reading it and finding its end, and
/// the same of the part.
const FAILING: &str = "\
1 => Read r 0
2 => Read r 0
3 => Read r 0
4 => Read p 0
5 => Read p 0
6 => Read p 0
7 => 0@r:0 1schema@r:0 2pattern@p:0";

const WITH_A_PART: &str = "r <schema~><include href='p'/></schema> | p <pattern~/>";

struct Failing;

impl Shown for Failing {
    fn shown(&self, alloc: Global, given: &'static str) -> Result<String, Fail> {
        let mut shelf = MemShelf::new(alloc);
        put_files(alloc, &mut shelf, WITH_A_PART)?;
        shelf.fail_at(given.parse().unwrap_or(0))?;
        Ok(loaded(alloc, &mut shelf)?)
    }
}

#[test]
fn a_fault_of_reading_names_its_file(rt: HostRuntime) -> Result<(), Fail> {
    expect_shown(rt.alloc(), &Failing, " => ", FAILING)
}

/// So many times a text.
fn push_times(text: &mut String, piece: &str, times: usize) -> Result<(), AllocError> {
    'times: for _ in 0..times {
        text.push_str(piece)?;
    }
    Ok(())
}

/// A part whose innermost element is the hundredth, put into a schema.
fn put_deep(alloc: Global, shelf: &mut MemShelf) -> Result<(), AllocError> {
    put_file(alloc, shelf, "r <schema~><include href='p'/></schema>")?;
    let mut text = String::new(alloc);
    text.push_str("<pattern~>")?;
    push_times(&mut text, "<a>", 99)?;
    push_times(&mut text, "</a>", 99)?;
    text.push_str("</pattern>")?;
    put_content(alloc, shelf, "p", text.as_str())
}

/// A rule file that asks for 64 others.
fn put_many(alloc: Global, shelf: &mut MemShelf) -> Result<(), AllocError> {
    let mut text = String::new(alloc);
    text.push_str("<schema~>")?;
    'files: for k in 0..64u32 {
        put_asking(alloc, shelf, &mut text, k)?;
    }
    text.push_str("</schema>")?;
    put_content(alloc, shelf, "r", text.as_str())
}

/// One more file, and an element that asks for it.
fn put_asking(
    alloc: Global,
    shelf: &mut MemShelf,
    text: &mut String,
    k: u32,
) -> Result<(), AllocError> {
    put_content(
        alloc,
        shelf,
        format!(in alloc; "{k}")?.as_str(),
        "<pattern~/>",
    )?;
    text.push_str(format!(in alloc; "<include href='{k}'/>")?.as_str())
}

fn is_told(alloc: Global, shelf: &mut MemShelf, wanted: &str) -> Result<bool, AllocError> {
    Ok(loaded(alloc, shelf)?.as_str() == wanted)
}

#[test]
fn parts_count_by_the_limits(rt: HostRuntime) -> Result<(), Fail> {
    let mut deep = MemShelf::new(rt.alloc());
    put_deep(rt.alloc(), &mut deep)?;
    expect(is_told(rt.alloc(), &mut deep, "TooDeep p 348")?, "deep")?;
    drop(deep);
    let mut many = MemShelf::new(rt.alloc());
    put_many(rt.alloc(), &mut many)?;
    expect(
        is_told(rt.alloc(), &mut many, "TooManyFiles r 1303")?,
        "many",
    )
}
