//! Patterns: what is found in a text, and what is none. The texts and answers come from outside.

use crate::texts::halves;
use std::alloc::{AllocError, Global};
use std::test::Fail;
use test_rows::{Shown, expect, expect_shown};
use xsd_pattern::{PatternFault, Regex, holds, parse};

/// A text, a pattern, and whether it is found, or why it is none.
const ROWS: &str = "\
DE123~^[A-Z]{2}[0-9]+$ > true
xDE1~^DE > false
~^$ > true
abc~x|b > true
a~[ > Bad
abc~ > true
~ > true
~a > false
~^$ > true
~a > false
abc~^abc$ > true
xabcx~abc > true
xabcx~^abc > false
xabcx~abc$ > false
abc~^a|x$ > true
abcabc~^(abc){2}$ > true
abcabcabc~^(abc){2}$ > false
aaa~^a{2,3}$ > true
aaaa~^a{2,3}$ > false
~^a{0}$ > true
a~^a{0}$ > false
b~^a?b$ > true
aab~^a?b$ > false
~^a*$ > true
~^a+$ > false
aaa~^a+$ > true
a~^.$ > true
~^.$ > false
a.c~^a\\.c$ > true
abc~^a\\.c$ > false
a+b~a\\+b > true
a-b~a\\-b > true
(x)~^\\(x\\)$ > true
{x}~^\\{x\\}$ > true
a|b~^a\\|b$ > true
12~^\\d+$ > true
1a~^\\d+$ > false
ab~^\\D+$ > true
a1~^\\D+$ > false
a~^\\S$ > true
a b~^\\S\\s\\S$ > true
abd~^[a-c]+$ > false
d~^[^a-c]$ > true
a~^[^a-c]$ > false
-~^[a\\-z]$ > true
^~^[\\^]$ > true
\\~^[\\\\]$ > true
.~^[.]$ > true
a~^[.]$ > false
$~^[$]$ > true
*~^[*+?(){}|]$ > true
5~^[\\da-f]$ > true
c~^[\\da-f]$ > true
x~^[^\\S]$ > false
b~^[a-a]$ > false
A~[a-z] > false
ab~^a(X|Y|)b$ > true
ab~^a()b$ > true
ab~^(a|b)*$ > true
aaab~^(a*)*$ > false
x~^|a > true
x~^$|a > false
a~^$|^a$ > true
abc~^a.*c$ > true
aaaaaaaaaaaaaaaaaaaaaaaaaaaaaaaaaaaaaaaaaaaaaaaaaa~^(a|aa)+$ > true
a~( > Bad
a~) > Bad
a~] > Bad
a~} > Bad
a~* > Bad
a~+a > Bad
a~\\w > Bad
a~\\i > Bad
a~\\p{L} > Bad
a~(a)\\1 > Bad
a~(?:a) > Bad
a~a** > Bad
a~a+? > Bad
a~a{1}{2} > Bad
a~a{} > Bad
a~a{x} > Bad
a~a{2,1} > Bad
a~a{0,1001} > Bad
a~a{0001} > true
a~a{1,0001} > true
a~a{0,1000} > true
a~^* > Bad
a~a^ > Bad
a~$a > Bad
a~(^a) > Bad
a~$ > true
a~^ > true
a~[] > Bad
a~[^] > Bad
a~[a-\\d] > Bad
a~[\\d-a] > Bad
a~[a^] > Bad
a~[[] > Bad
a~[a-z-[b]] > Bad
a~[\\w] > Bad
a~[\\.] > false
a~a{1000}a{1000} > false
a~(a{1000}){3} > TooLarge
a~(a{1000}){3}[ > Bad
a~(ab){1000,} > TooLarge
a~(ab){0,1000} > true
a~(abc){0,1000} > TooLarge
a~(a{1000}){1,1}a*b?c+..... > false
a~((a{1000}){1000}){1000} > TooLarge
a~^(((((()*){1000}){1000}){1000}){1000}){1000}b$ > false
\u{1f600}~^.$ > true
\u{1f600}~^..$ > false
a\u{a0}b~^a\\sb$ > false
aa~^a{2}{2}$ > Bad
a-~[a-] > Bad
-a~[-a] > Bad
a~a{,3} > Bad
a~a{00001} > Bad
a~a{1001} > Bad
a~[b-a] > Bad
a~[]a] > Bad
a~\\ > Bad
a~[a > Bad
a~a{1 > Bad
a~a{1, > Bad
aaa~^(a{2,}){1,}$ > true
a~^(a?)+$ > true
~^(a?)+$ > true
aab~^((a*)?b?)+$ > true
abab~^(ab?|b){4}$ > true
abab~^(ab?|b){2,4}$ > true
a~(a{1000}){1,} > false
a~(a{1000}){1,}b > TooLarge
a~(a{1000}){0}a{1000}b > TooLarge
a~((a+)+)+{1000} > Bad";

fn found(alloc: Global, regex: &Regex, text: &str) -> Result<&'static str, Fail> {
    if holds(alloc, regex, text)? {
        Ok("true")
    } else {
        Ok("false")
    }
}

fn answer(alloc: Global, text: &str, pattern: &str) -> Result<&'static str, Fail> {
    match parse(alloc, pattern) {
        Ok(regex) => found(alloc, &regex, text),
        Err(PatternFault::Bad) => Ok("Bad"),
        Err(PatternFault::TooLarge) => Ok("TooLarge"),
        Err(PatternFault::Memory) => Ok("Memory"),
    }
}

struct Patterns;

impl Shown for Patterns {
    fn shown(&self, alloc: Global, given: &'static str) -> Result<String, Fail> {
        let (text, pattern) = halves(given, '~');
        Ok(String::from_str(alloc, answer(alloc, text, pattern)?)?)
    }
}

#[test]
fn patterns_are_found(rt: HostRuntime) -> Result<(), Fail> {
    expect_shown(rt.alloc(), &Patterns, " > ", ROWS)
}

fn push_times(text: &mut String, count: usize, piece: &str) -> Result<(), AllocError> {
    for _ in 0..count {
        text.push_str(piece)?;
    }
    Ok(())
}

/// So many of the one, the inside, and so many of the other, as a whole line.
fn nested(
    alloc: Global,
    count: usize,
    around: (&str, &str),
    inside: &str,
) -> Result<String, AllocError> {
    let mut pattern = String::from_str(alloc, "^")?;
    push_times(&mut pattern, count, around.0)?;
    pattern.push_str(inside)?;
    push_times(&mut pattern, count, around.1)?;
    pattern.push_str("$")?;
    Ok(pattern)
}

/// Whether a pattern that nests 30,000 deep is answered so.
fn is_deep(
    alloc: Global,
    around: (&str, &str),
    inside: &str,
    text: &str,
    wanted: &str,
) -> Result<bool, Fail> {
    let pattern = nested(alloc, 30_000, around, inside)?;
    Ok(answer(alloc, text, pattern.as_str())? == wanted)
}

/// Whether the pattern isn't found in a text of some thousand times the same letter.
fn is_absent(alloc: Global, pattern: &str) -> Result<bool, Fail> {
    let text = nested(alloc, 1_000, ("aa", ""), "aab")?;
    Ok(answer(alloc, text.as_str(), pattern)? == "false")
}

/// Groups that nest 30,000 deep, and patterns that other programs take long for.
#[test]
fn hostile_patterns(rt: HostRuntime) -> Result<(), Fail> {
    let alloc = rt.alloc();
    expect(
        is_deep(alloc, ("(", ")*"), "a", "aaaa", "true")?,
        "stars of stars",
    )?;
    expect(is_deep(alloc, ("(", ")"), "a", "aa", "false")?, "groups")?;
    expect(
        is_deep(alloc, ("(", "){1000}"), "()", "", "true")?,
        "repeats of nothing",
    )?;
    expect(is_absent(alloc, "(a*)*c")?, "a star in a star")?;
    expect(is_absent(alloc, "(a|aa)+c")?, "choices")?;
    expect(is_absent(alloc, "(a?){90}a{90}c")?, "options")
}
