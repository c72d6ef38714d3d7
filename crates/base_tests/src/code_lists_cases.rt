//! Files of code lists, and what they allow.

use crate::texts::halves;
use code_lists::{CodeLists, List, ListFault};
use std::alloc::{AllocError, Global};
use std::test::Fail;
use test_rows::{Holds, Shown, expect, expect_rows, expect_shown};

/// What a file is refused with, as it is printed behind the file's name, and nothing where it isn't refused.
fn told(alloc: Global, file: &[u8]) -> Result<String, AllocError> {
    match CodeLists::from_toml(alloc, file) {
        Ok(lists) => {
            drop(lists);
            Ok(String::new(alloc))
        }
        Err(ListFault::NotToml) => String::from_str(alloc, "NotToml"),
        Err(ListFault::NotALists(key)) => key_told(alloc, "NotALists", key.as_str()),
        Err(ListFault::BadCode(key)) => key_told(alloc, "BadCode", key.as_str()),
        Err(ListFault::Memory) => Err(AllocError),
    }
}

fn key_told(alloc: Global, fault: &str, key: &str) -> Result<String, AllocError> {
    format!(in alloc; "{fault} {key}")
}

/// Files, with `␊` for LF, and what each is refused with. Behind the arrow of one that isn't refused stands nothing.
const FILES: &str = r#"→NotALists lists
# nothing␊→NotALists lists
x→NotToml
[lists]␊→
lists = {}␊→
[lists]␊category = []␊→NotALists category
[lists]␊point = []␊→NotALists point
[lists]␊money = []␊→NotALists money
[lists]␊currency = ["US D"]␊→BadCode currency
[lists]␊currency = 1␊→NotALists currency
[lists]␊currency = [1]␊→BadCode currency
[lists]␊currency = [""]␊→BadCode currency
[lists]␊currency = [" EUR"]␊→BadCode currency
[lists]␊currency = ["€"]␊→BadCode currency
[lists]␊currency = ["EUR", ["USD"]]␊→BadCode currency
[lists.currency]␊→NotALists currency
[[lists]]␊→NotALists lists
lists = 1␊→NotALists lists
[list]␊→NotALists list
zzz = 1␊→NotALists lists
aaa = 1␊→NotALists aaa
zzz = 1␊lists = 1␊→NotALists lists
aaa = 1␊lists = 1␊→NotALists aaa
[a]␊[lists]␊→NotALists a
[z]␊[lists]␊→NotALists z
a = 1␊Z = 1␊[lists]␊→NotALists Z
a = 1␊[lists]␊unit = [1]␊→NotALists a
zz = 1␊[lists]␊unit = [1]␊→NotALists zz
[lists]␊unit = []␊unit = []␊→NotToml
[lists]␊zzz = []␊unit = [1]␊→BadCode unit
[lists]␊zz = []␊aa = []␊→NotALists aa
[lists]␊unit = [1]␊category = []␊→NotALists category
[lists]␊"cur rency" = []␊→NotALists cur rency
[lists]␊"é" = []␊→NotALists é"#;

fn push_spelled(file: &mut String, written: &str) -> Result<(), AllocError> {
    for c in written.chars() {
        file.push(if c == '␊' { '\n' } else { c })?;
    }
    Ok(())
}

struct Files;

impl Shown for Files {
    fn shown(&self, alloc: Global, written: &'static str) -> Result<String, Fail> {
        let mut file = String::new(alloc);
        push_spelled(&mut file, written)?;
        Ok(told(alloc, file.as_bytes())?)
    }
}

#[test]
fn files_are_read_or_refused(rt: HostRuntime) -> Result<(), Fail> {
    expect_shown(rt.alloc(), &Files, "→", FILES)?;
    let bytes = b"[lists]\nunit = [\"\xFF\"]\n";
    expect(told(rt.alloc(), bytes)?.as_str() == "NotToml", "no text")
}

/// Whether this list and no other was given as `A1`, `~!`.
fn has_its_codes(lists: &CodeLists, list: List) -> bool {
    lists.allows(list, "A1")
        & lists.allows(list, "~!")
        & !lists.allows(list, "a1")
        & !lists.allows(list, "")
        & !lists.allows(List::Category, "A1")
}

fn gives(alloc: Global, file: &str, list: List) -> bool {
    match CodeLists::from_toml(alloc, file.as_bytes()) {
        Ok(lists) => has_its_codes(&lists, list),
        Err(_) => false,
    }
}

fn may_be_given(alloc: Global, list: List, key: &str) -> Result<bool, AllocError> {
    let file = format!(in alloc; "lists = {{ {key} = [\"A1\", \"~!\", \"A1\"] }}")?;
    Ok(gives(alloc, file.as_str(), list))
}

/// The lists that may be given, and their keys in a file.
const LISTS: [(List, &str); 14] = [
    (List::Allowance, "allowance"),
    (List::Charge, "charge"),
    (List::Classification, "classification"),
    (List::Country, "country"),
    (List::Currency, "currency"),
    (List::Endpoint, "endpoint"),
    (List::Exemption, "exemption"),
    (List::InvoiceType, "type"),
    (List::Means, "means"),
    (List::Mime, "mime"),
    (List::Object, "object"),
    (List::Scheme, "scheme"),
    (List::Subject, "subject"),
    (List::UnitOfMeasure, "unit"),
];

#[test]
fn every_list_may_be_given(rt: HostRuntime) -> Result<(), Fail> {
    for (list, key) in LISTS {
        expect(may_be_given(rt.alloc(), list, key)?, key)?;
    }
    Ok(())
}

/// Codes that are categories, that are points, and that are neither.
const BUILT_IN: &str = "\
category S Z E AE K G O L M B
point 3 35 432
neither A 43";

/// Whether a code of this kind is allowed as that alone by built-in lists, and in lists that aren't given.
fn is_of(lists: &CodeLists, kind: &str, code: &str) -> bool {
    let is_category = lists.allows(List::Category, code) == (kind == "category");
    let is_point = lists.allows(List::Point, code) == (kind == "point");
    let is_free = lists.allows(List::Currency, code) & lists.allows(List::InvoiceType, code);
    is_category & is_point & is_free
}

fn are_of(lists: &CodeLists, kind: &str, codes: &str) -> bool {
    let mut held = true;
    for code in codes.split(' ') {
        held &= is_of(lists, kind, code);
    }
    held
}

#[derive(Clone, Copy)]
struct BuiltIn<'a> {
    lists: &'a CodeLists,
}

impl Holds for BuiltIn<'_> {
    fn holds(&self, _: Global, row: &'static str) -> Result<bool, Fail> {
        let (kind, codes) = halves(row, ' ');
        Ok(are_of(self.lists, kind, codes))
    }
}

/// Whether no unit is allowed, and all else as before.
fn has_no_unit(lists: &CodeLists) -> bool {
    !lists.allows(List::UnitOfMeasure, "C62")
        & lists.allows(List::Country, "DE")
        & lists.allows(List::Category, "AE")
}

fn gives_no_unit(alloc: Global, file: &[u8]) -> bool {
    match CodeLists::from_toml(alloc, file) {
        Ok(lists) => has_no_unit(&lists),
        Err(_) => false,
    }
}

#[test]
fn lists_that_are_not_given_allow_all(rt: HostRuntime) -> Result<(), Fail> {
    let lists = CodeLists::built_in(rt.alloc())?;
    let allowed = expect_rows(rt.alloc(), &BuiltIn { lists: &lists }, BUILT_IN);
    drop(lists);
    allowed?;
    expect(gives_no_unit(rt.alloc(), b"[lists]\nunit = []\n"), "unit")
}

/// A file whose currency is one code of so many letters.
fn push_code_of(file: &mut String, letters: u32) -> Result<(), AllocError> {
    file.push_str("[lists]\ncurrency = [\"")?;
    for _ in 0..letters {
        file.push_str("A")?;
    }
    file.push_str("\"]\n")
}

/// How many letters a code has, and what its file is refused with.
const LENGTHS: &str = "\
0→BadCode currency
1→
127→
128→
129→BadCode currency
1000→BadCode currency";

struct Lengths;

impl Shown for Lengths {
    fn shown(&self, alloc: Global, letters: &'static str) -> Result<String, Fail> {
        let letters = letters.parse().unwrap_or(0);
        let mut file = String::new(alloc);
        push_code_of(&mut file, letters)?;
        Ok(told(alloc, file.as_bytes())?)
    }
}

#[test]
fn codes_have_at_most_128_characters(rt: HostRuntime) -> Result<(), Fail> {
    expect_shown(rt.alloc(), &Lengths, "→", LENGTHS)
}
