//! Texts that are read as JSON, compared with items and faults that were written by hand.

use json_reading::{Item, ItemKind, JsonFault, JsonKind, JsonText, LIMITS, Span, read};
use std::alloc::{AllocError, Global};
use std::test::Fail;
use test_rows::{Shown, expect, expect_shown};

/// A text, with `␊` for LF, `␤` for TAB and `⍽` for U+FEFF, and its items or its fault. An item is its name, where it has one, with
/// `=` behind it; `o`, `a`, `s`, `d`, `t`, `f` or `n`; where it stands, with `!` where it has an escape; behind `+` how many stand inside
/// it; and of a string the text, with `-` where it has none.
const READ: &str = r#"⇒Truncated 0
␊ ␤⇒Truncated 3
1⇒d0-1
 -0.50e+10␊⇒d1-10
1234567890123456789012345678901234567890⇒d0-40
0E0⇒d0-3
true⇒t0-4
 false ⇒f1-6
null⇒n0-4
""⇒s0-2()
"a/b \u00e9"⇒s0-12!(a/b é)
"\"\\\/\u0041"⇒s0-14!("\/A)
"é€😀"⇒s0-11(é€😀)
"\ud83d\ude00"⇒s0-14!(😀)
"\ud83d"⇒s0-8!-
"\ude00"⇒s0-8!-
"\ud83dx"⇒s0-9!-
"\ud83d\n"⇒s0-10!-
"\ud83d\u0041"⇒s0-14!-
"a run of more than sixteen plain bytes, and \"quoted\" ones"⇒s0-61!(a run of more than sixteen plain bytes, and "quoted" ones)
⍽1⇒d3-4
⍽⇒Truncated 3
 ⍽1⇒NotJson 1
[]⇒a0-2+0
{}⇒o0-2+0
[ 1 , [ ] ]⇒a0-11+2 d2-3 a6-9+0
{"a":1,"b":{"c":[2,"x"]},"a":null}⇒o0-34+6 1-4=d5-6 7-10=o11-24+3 12-15=a16-23+2 d17-18 s19-22(x) 25-28=n29-33
{ "\u0061" : [ ] }⇒o0-18+1 2-10!=a13-16+0
1 x⇒NotJson 2
1,⇒NotJson 1
[1,]⇒NotJson 3
[,⇒NotJson 1
{,⇒NotJson 1
{"a"}⇒NotJson 4
{"a":}⇒NotJson 5
{"a":1,}⇒NotJson 7
{"a":1]⇒NotJson 6
[1}⇒NotJson 2
01⇒NotJson 1
-x⇒NotJson 1
+1⇒NotJson 0
.5⇒NotJson 0
1.⇒Truncated 2
1.x⇒NotJson 2
1e⇒Truncated 2
1e+⇒Truncated 3
1e+-⇒NotJson 3
'⇒NotJson 0
/* */ 1⇒NotJson 0
True⇒NotJson 0
tru⇒Truncated 3
trux⇒NotJson 3
nul1⇒NotJson 3
<Invoice⇒NotJson 0
"a⇒Truncated 2
"a␊"⇒NotJson 2
"␤"⇒NotJson 1
"\x"⇒NotJson 2
"\u12g4"⇒NotJson 5
"\u12⇒Truncated 5
é⇒NotJson 0
[é⇒NotJson 1
{"a⇒Truncated 3
[[1],⇒Truncated 5"#;

fn letter(kind: ItemKind) -> &'static str {
    match kind {
        ItemKind::Object => "o",
        ItemKind::Array => "a",
        ItemKind::Text => "s",
        ItemKind::Number => "d",
        ItemKind::True => "t",
        ItemKind::False => "f",
        ItemKind::Null => "n",
    }
}

fn word(kind: JsonKind) -> &'static str {
    match kind {
        JsonKind::NotJson => "NotJson ",
        JsonKind::NotUtf8 => "NotUtf8 ",
        JsonKind::TooDeep => "TooDeep ",
        JsonKind::Truncated => "Truncated ",
        JsonKind::TooLong => "TooLong ",
        JsonKind::Memory => "Memory ",
    }
}

fn push_number(alloc: Global, shown: &mut String, number: u64) -> Result<(), AllocError> {
    let digits = format!(in alloc; "{number}")?;
    let pushed = shown.push_str(digits.as_str());
    drop(digits);
    pushed
}

fn push_span(alloc: Global, shown: &mut String, span: Span) -> Result<(), AllocError> {
    push_number(alloc, shown, span.at as u64)?;
    shown.push_str("-")?;
    push_number(alloc, shown, span.end as u64)?;
    if span.escaped {
        shown.push_str("!")?;
    }
    Ok(())
}

fn push_name(alloc: Global, shown: &mut String, name: Option<Span>) -> Result<(), AllocError> {
    match name {
        Some(span) => {
            push_span(alloc, shown, span)?;
            shown.push_str("=")
        }
        None => Ok(()),
    }
}

fn push_told(shown: &mut String, told: Option<&str>) -> Result<(), AllocError> {
    match told {
        Some(text) => {
            shown.push_str("(")?;
            shown.push_str(text)?;
            shown.push_str(")")
        }
        None => shown.push_str("-"),
    }
}

fn push_text(
    alloc: Global,
    shown: &mut String,
    text: &JsonText<'_>,
    span: Span,
) -> Result<(), AllocError> {
    match text.text_of(alloc, span)? {
        Some(told) => {
            let pushed = push_told(shown, Some(told.as_str()));
            drop(told);
            pushed
        }
        None => push_told(shown, None),
    }
}

fn push_item(
    alloc: Global,
    shown: &mut String,
    text: &JsonText<'_>,
    item: Item,
) -> Result<(), AllocError> {
    push_name(alloc, shown, item.name)?;
    shown.push_str(letter(item.kind))?;
    push_span(alloc, shown, item.value)?;
    match item.kind {
        ItemKind::Object | ItemKind::Array => {
            shown.push_str("+")?;
            push_number(alloc, shown, item.inside as u64)
        }
        ItemKind::Text => push_text(alloc, shown, text, item.value),
        _ => Ok(()),
    }
}

fn push_items(alloc: Global, shown: &mut String, text: &JsonText<'_>) -> Result<(), AllocError> {
    for (index, item) in text.items.iter().enumerate() {
        if 0 < index {
            shown.push_str(" ")?;
        }
        push_item(alloc, shown, text, *item)?;
    }
    Ok(())
}

fn push_fault(alloc: Global, shown: &mut String, fault: JsonFault) -> Result<(), AllocError> {
    shown.push_str(word(fault.kind))?;
    push_number(alloc, shown, fault.at)
}

fn push_read(alloc: Global, shown: &mut String, bytes: &[u8]) -> Result<(), AllocError> {
    match read(alloc, LIMITS, bytes) {
        Ok(text) => {
            let pushed = push_items(alloc, shown, &text);
            drop(text);
            pushed
        }
        Err(fault) => push_fault(alloc, shown, fault),
    }
}

fn push_spelled(bytes: &mut String, given: &str) -> Result<(), AllocError> {
    for c in given.chars() {
        bytes.push(match c {
            '␊' => '\n',
            '␤' => '\t',
            '⍽' => '\u{feff}',
            _ => c,
        })?;
    }
    Ok(())
}

struct Read;

impl Shown for Read {
    fn shown(&self, alloc: Global, given: &'static str) -> Result<String, Fail> {
        let mut bytes = String::new(alloc);
        let mut shown = String::new(alloc);
        push_spelled(&mut bytes, given)?;
        push_read(alloc, &mut shown, bytes.as_bytes())?;
        Ok(shown)
    }
}

#[test]
fn texts_have_these_items_or_this_fault(rt: HostRuntime) -> Result<(), Fail> {
    expect_shown(rt.alloc(), &Read, "⇒", READ)
}

/// Whether so many arrays inside one another are refused at the place, or aren't refused.
fn is_fault_of(alloc: Global, deep: usize, kind: JsonKind, at: u64) -> Result<bool, AllocError> {
    let mut bytes: Vec<u8> = Vec::new(alloc);
    for _ in 0..deep {
        bytes.push(b'[')?;
    }
    let holds = match read(alloc, LIMITS, bytes.as_slice()) {
        Ok(text) => {
            drop(text);
            false
        }
        Err(fault) => fault.kind == kind && fault.at == at,
    };
    drop(bytes);
    Ok(holds)
}

#[test]
fn a_hundred_arrays_are_inside_one_another(rt: HostRuntime) -> Result<(), Fail> {
    let alloc = rt.alloc();
    expect(is_fault_of(alloc, 100, JsonKind::Truncated, 100)?, "100")?;
    expect(is_fault_of(alloc, 101, JsonKind::TooDeep, 100)?, "101")?;
    expect(is_fault_of(alloc, 200, JsonKind::TooDeep, 100)?, "200")
}
