//! Files of extension terms, and the terms that they give.

use bind_rows::{ElementName, Many, prefix_of};
use extension_files::{ExtFault, ExtPlace, ExtTerm, Extension};
use std::alloc::{AllocError, Global};
use std::test::Fail;
use term_table::DataType;
use test_rows::{Shown, expect, expect_shown};

fn word_of_place(place: ExtPlace) -> &'static str {
    match place {
        ExtPlace::Root => "root",
        ExtPlace::Line => "line",
    }
}

fn word_of_letter(data_type: DataType) -> &'static str {
    match data_type {
        DataType::T => "T",
        DataType::I => "I",
        DataType::C => "C",
        DataType::A => "A",
        DataType::Q => "Q",
        DataType::P => "P",
        DataType::D => "D",
        DataType::B => "B",
    }
}

fn push_name(told: &mut String, name: &ElementName) -> Result<(), AllocError> {
    told.push_str("/")?;
    told.push_str(prefix_of(name.namespace))?;
    told.push_str(":")?;
    told.push_str(name.local.as_str())
}

fn push_names(told: &mut String, names: &[ElementName]) -> Result<(), AllocError> {
    'names: for name in names {
        push_name(told, name)?;
    }
    Ok(())
}

fn push_path(
    told: &mut String,
    syntax: &str,
    path: &Option<Many<ElementName>>,
) -> Result<(), AllocError> {
    match path {
        Some(names) => {
            told.push_str(syntax)?;
            push_names(told, names.as_slice())
        }
        None => Ok(()),
    }
}

fn push_head(alloc: Global, told: &mut String, term: &ExtTerm) -> Result<(), AllocError> {
    let number = term.number;
    let head = format!(in alloc; "{number} ")?;
    told.push_str(head.as_str())?;
    told.push_str(word_of_place(term.place))?;
    told.push_str(" ")?;
    told.push_str(word_of_letter(term.data_type))
}

fn push_term(alloc: Global, told: &mut String, term: &ExtTerm) -> Result<(), AllocError> {
    push_head(alloc, told, term)?;
    push_path(told, " ubl ", &term.paths.ubl)?;
    push_path(told, " cn ", &term.paths.credit_note)?;
    push_path(told, " cii ", &term.paths.cii)?;
    told.push_str(";")
}

fn terms_told(alloc: Global, terms: &[ExtTerm]) -> Result<String, AllocError> {
    let mut told = String::new(alloc);
    'terms: for term in terms {
        push_term(alloc, &mut told, term)?;
    }
    Ok(told)
}

fn key_told(alloc: Global, key: &str) -> Result<String, AllocError> {
    format!(in alloc; "NotAnExtension {key}")
}

/// The terms of a file, each with the paths that it has, or what the file is refused with.
fn told(alloc: Global, file: &[u8]) -> Result<String, AllocError> {
    match Extension::from_toml(alloc, file) {
        Ok(extension) => {
            let told = terms_told(alloc, extension.terms());
            drop(extension);
            told
        }
        Err(ExtFault::NotToml) => String::from_str(alloc, "NotToml"),
        Err(ExtFault::NotAnExtension(key)) => key_told(alloc, key.as_str()),
        Err(ExtFault::BadTerm(place)) => format!(in alloc; "BadTerm {place}"),
        Err(ExtFault::Memory) => Err(AllocError),
    }
}

/// Files, with `␊` for LF, and what each gives or is refused with.
const FILES: &str = r#"→NotAnExtension term
# nothing␊→NotAnExtension term
x→NotToml
[[term]␊→NotToml
term = []␊→
term = 1␊→NotAnExtension term
term = [1]␊→NotAnExtension term
term = [{ number = 1, place = "root", type = "T", ubl = "cac:X" }, 1]␊→NotAnExtension term
[term]␊→NotAnExtension term
title = "x"␊[[term]]␊→NotAnExtension title
z = 2␊a = 1␊[[term]]␊→NotAnExtension a
zzz = 1␊→NotAnExtension zzz
zzz = 1␊term = 1␊→NotAnExtension zzz
a = 1␊Z = 1␊term = []␊→NotAnExtension Z
"é" = 1␊→NotAnExtension é
[[term]]␊number = 1␊number = 1␊→NotToml
[[term]]␊→BadTerm 1"#;

/// Terms as they stand in an array, and what the file of each gives or is refused with.
const TERMS: &str =
    r#"{ number = 1, place = "line", type = "T", ubl = "cac:Item/cbc:BrandName", cii = "ram:SpecifiedTradeProduct/ram:BrandName" }→1 line T ubl /cac:Item/cbc:BrandName cii /ram:SpecifiedTradeProduct/ram:BrandName;
{ number = 99, place = "root", type = "A", cn = "cac:ProjectReference/cbc:ID" }→99 root A cn /cac:ProjectReference/cbc:ID;
{ number = 7, place = "root", type = "D", cii = "rsm:A/ram:B/udt:C/qdt:D9" }→7 root D cii /rsm:A/ram:B/udt:C/qdt:D9;
{ type = "Q", ubl = "cac:a", place = "line", number = 0x2, cn = "cbc:b", cii = "ram:c" }→2 line Q ubl /cac:a cn /cbc:b cii /ram:c;
{ number = 1, place = "root", type = "I", ubl = "cac:X" }, { number = 3, place = "line", type = "C", ubl = "cac:X" }→1 root I ubl /cac:X;3 line C ubl /cac:X;
{ number = 1, place = "root", type = "P", ubl = "cac:X" }, { number = 1, place = "line", type = "T", ubl = "cac:Y" }→BadTerm 2
{ number = 5, place = "root", type = "T", ubl = "cac:X" }, { number = 4, place = "line", type = "T", ubl = "cac:Y" }→BadTerm 2
{ number = 5, place = "root", type = "T", ubl = "cac:X" }, { number = 6, place = "line", type = "T", ubl = "cac:Y" }, {}→BadTerm 3
{ number = 0, place = "line", type = "T", ubl = "cac:X" }→BadTerm 1
{ number = 100, place = "line", type = "T", ubl = "cac:X" }→BadTerm 1
{ number = -1, place = "line", type = "T", ubl = "cac:X" }→BadTerm 1
{ number = 9223372036854775807, place = "line", type = "T", ubl = "cac:X" }→BadTerm 1
{ number = 1.0, place = "line", type = "T", ubl = "cac:X" }→BadTerm 1
{ number = true, place = "line", type = "T", ubl = "cac:X" }→BadTerm 1
{ number = "1", place = "line", type = "T", ubl = "cac:X" }→BadTerm 1
{ place = "line", type = "T", ubl = "cac:X" }→BadTerm 1
{ number = 1, type = "T", ubl = "cac:X" }→BadTerm 1
{ number = 1, place = "line", ubl = "cac:X" }→BadTerm 1
{ number = 1, place = "line", type = "T" }→BadTerm 1
{ number = 1, place = "Line", type = "T", ubl = "cac:X" }→BadTerm 1
{ number = 1, place = 1, type = "T", ubl = "cac:X" }→BadTerm 1
{ number = 1, place = "line", type = "t", ubl = "cac:X" }→BadTerm 1
{ number = 1, place = "line", type = "TT", ubl = "cac:X" }→BadTerm 1
{ number = 1, place = "line", type = "", ubl = "cac:X" }→BadTerm 1
{ number = 1, place = "line", type = "B", ubl = "cac:X" }→BadTerm 1
{ number = 1, place = "line", type = "T", ubl = "cac:X", note = "x" }→BadTerm 1
{ number = 1, place = "line", type = "T", ubl = "cac:X", cii = "cac:A" }→BadTerm 1
{ number = 1, place = "line", type = "T", ubl = 1, cii = "ram:X" }→BadTerm 1
{ number = 1, place = "line", type = "T", cn = ["cac:X"] }→BadTerm 1"#;

/// Paths in a UBL Invoice, and whether a term may have them.
const PATHS: &str = "\
cac:Item/cbc:BrandName→1 line T ubl /cac:Item/cbc:BrandName;
cac:A/cac:A/cac:A/cac:A/cac:A/cac:A/cac:A/cac:A/cac:A/cac:A/cac:A/cac:A/cac:A/cac:A/cac:A/cac:A/cac:A/cac:A/cac:A/cac:A→\
1 line T ubl /cac:A/cac:A/cac:A/cac:A/cac:A/cac:A/cac:A/cac:A/cac:A/cac:A/cac:A/cac:A/cac:A/cac:A/cac:A/cac:A/cac:A/cac:A\
/cac:A/cac:A;
cac:A/cac:A/cac:A/cac:A/cac:A/cac:A/cac:A/cac:A/cac:A/cac:A/cac:A/cac:A/cac:A/cac:A/cac:A/cac:A/cac:A/cac:A/cac:A/cac:A\
/cac:A→BadTerm 1
cac:abcdefghijklmnopqrstuvwxyzABCDEFGHIJKLMNOPQRSTUVWXYZ0123456789abcdefghijklmnopqrstuvwxyzABCDEFGHIJ12→\
1 line T ubl /cac:abcdefghijklmnopqrstuvwxyzABCDEFGHIJKLMNOPQRSTUVWXYZ0123456789abcdefghijklmnopqrstuvwxyzABCDEFGHIJ12;
cac:abcdefghijklmnopqrstuvwxyzABCDEFGHIJKLMNOPQRSTUVWXYZ0123456789abcdefghijklmnopqrstuvwxyzABCDEFGHIJ123→BadTerm 1
→BadTerm 1
cac→BadTerm 1
cac:→BadTerm 1
:A→BadTerm 1
cac:Item/→BadTerm 1
/cac:Item→BadTerm 1
cac:A//cbc:B→BadTerm 1
Item→BadTerm 1
ram:Item→BadTerm 1
CAC:A→BadTerm 1
ca:A→BadTerm 1
cac:Item/@x→BadTerm 1
cac:1tem→BadTerm 1
cac:I-tem→BadTerm 1
cac:I:tem→BadTerm 1
cac:It em→BadTerm 1
cac:Ité→BadTerm 1
é:A→BadTerm 1";

/// A file with `␊` for LF.
fn push_spelled(file: &mut String, written: &str) -> Result<(), AllocError> {
    for c in written.chars() {
        file.push(if c == '␊' { '\n' } else { c })?;
    }
    Ok(())
}

struct Files;

impl Shown for Files {
    fn shown(&self, alloc: Global, written: &'static str) -> Result<String, Fail> {
        let mut file = String::new(alloc);
        push_spelled(&mut file, written)?;
        Ok(told(alloc, file.as_bytes())?)
    }
}

struct Terms;

impl Shown for Terms {
    fn shown(&self, alloc: Global, terms: &'static str) -> Result<String, Fail> {
        let file = format!(in alloc; "term = [{terms}]")?;
        Ok(told(alloc, file.as_bytes())?)
    }
}

struct Ways;

impl Shown for Ways {
    fn shown(&self, alloc: Global, path: &'static str) -> Result<String, Fail> {
        let file = format!(in alloc;
            "term = [{{ number = 1, place = \"line\", type = \"T\", ubl = \"{path}\" }}]"
        )?;
        Ok(told(alloc, file.as_bytes())?)
    }
}

#[test]
fn files_are_read_or_refused(rt: HostRuntime) -> Result<(), Fail> {
    expect_shown(rt.alloc(), &Files, "→", FILES)?;
    let bytes = b"term = \"\xFF\"\n";
    expect(told(rt.alloc(), bytes)?.as_str() == "NotToml", "no text")
}

#[test]
fn terms_are_read_or_refused(rt: HostRuntime) -> Result<(), Fail> {
    expect_shown(rt.alloc(), &Terms, "→", TERMS)
}

#[test]
fn paths_are_read_or_refused(rt: HostRuntime) -> Result<(), Fail> {
    expect_shown(rt.alloc(), &Ways, "→", PATHS)
}
