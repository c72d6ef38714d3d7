//! What begins a document.

use crate::texts::bytes_of;
use std::alloc::{AllocError, Global};
use std::test::Fail;
use test_rows::{Shown, expect_shown};
use xml_tokens::{Beginning, Position, Search, plain_tag, what_begins};

/// What begins a document, with `%` and two hexadecimal digits for a byte, and, behind ` => `, the answer.
const STARTS: &str = "\
a => Good(Character('a'), 1)
%20a => Good(Character(' '), 1)
%EF%BB%BF => Good(Mark, 3)
%EF%BB => Later
%EF%BB%BEx => Good(Character('\\u{fefe}'), 3)
%E2%82%AC => Good(Character('€'), 3)
%E2%82 => Later
%E2%28 => Bad(NotUtf8, 2)
%E0%80 => Bad(NotUtf8, 2)
%ED%A0 => Bad(NotUtf8, 2)
%C0%80 => Bad(NotUtf8, 1)
%80 => Bad(NotUtf8, 1)
%F0%9F%98%80 => Good(Character('😀'), 4)
%F4%90 => Bad(NotUtf8, 2)
%EF%BF%BE => Bad(BadChar, 3)
%00 => Bad(BadChar, 1)
%0Da => Good(Character('\\n'), 1)
%0D%0A => Good(Character('\\n'), 2)
]]> => Bad(BadMarkup, 3)
]]a => Good(Character(']'), 1)
]a => Good(Character(']'), 1)
&amp;x => Good(Reference('&'), 5)
&apos; => Good(Reference('\\''), 6)
&quot; => Good(Reference('\"'), 6)
&foo; => Bad(BadReference, 5)
&foo => Later
& => Later
&; => Bad(BadReference, 2)
&#; => Bad(BadReference, 3)
&#x; => Bad(BadReference, 4)
&#65; => Good(Reference('A'), 5)
&#x41; => Good(Reference('A'), 6)
&#X41; => Bad(BadReference, 6)
&#x0000000041; => Good(Reference('A'), 14)
&#x00000000041; => Bad(BadReference, 14)
&#0; => Bad(BadReference, 4)
&#xD800; => Bad(BadReference, 8)
&#x10FFFF; => Good(Reference('\\u{10ffff}'), 10)
&#x110000; => Bad(BadReference, 10)
&a%FF => Bad(BadReference, 3)
< => Later
<! => Later
<!- => Later
<!x => Bad(BadMarkup, 3)
<!-x => Bad(BadMarkup, 4)
<![CDx => Bad(BadMarkup, 6)
<!DOCTYP => Later
<!DOCTYPE => Bad(Doctype, 9)
<!doctype => Bad(BadMarkup, 3)
<!--x => Later
<!-- => Later
<!--> => Later
<!---> => Later
<!----> => Good(Aside, 7)
<!--x-->y => Good(Aside, 8)
<!--x--y--> => Bad(BadMarkup, 11)
<!--x---> => Bad(BadMarkup, 9)
<!--%FF--> => Bad(NotUtf8, 8)
<!--%01--> => Bad(BadChar, 8)
<![CDATA[]]> => Good(Section(Section { written: \"\" }), 12)
<![CDATA[a<b]]]>x => Good(Section(Section { written: \"a<b]\" }), 16)
<![CDATA[x]] => Later
<?a?> => Good(Aside, 5)
<?a b?> => Good(Aside, 7)
<?a:b?> => Bad(BadMarkup, 7)
<?a<?> => Bad(BadMarkup, 6)
<?> => Later
<?>?> => Bad(BadMarkup, 5)
<? a?> => Bad(BadMarkup, 6)
<?XML?> => Bad(BadMarkup, 7)
<?xml?> => Bad(BadDeclaration, 7)
<?xml.?> => Good(Aside, 8)
<?xml version='1.0'?> => Good(Aside, 21)
<?xml version = \"1.0\" encoding='utf-8'%0Astandalone='no' ?> => Good(Aside, 57)
<?xml version='1.1'?> => Bad(BadDeclaration, 21)
<?xml version='1.0' standalone='no' encoding='utf-8'?> => Bad(BadDeclaration, 54)
<?xml version='1.0'encoding='utf-8'?> => Bad(BadDeclaration, 37)
<?xmlversion='1.0'?> => Bad(BadMarkup, 20)
<a> => Good(StartTag(StartTag { name: \"a\", attributes: [], is_empty: false }), 3)
<p:a/> => Good(StartTag(StartTag { name: \"p:a\", attributes: [], is_empty: true }), 6)
<é /> => Good(StartTag(StartTag { name: \"é\", attributes: [], is_empty: true }), 6)
<a b='c'> => Good(StartTag(StartTag { name: \"a\", attributes: [Attribute { name: \"b\", value: Lent(\"c\") }], is_empty: false }), 9)
<a b='>' c = \"'\" > => Good(StartTag(StartTag { name: \"a\", attributes: [Attribute { name: \"b\", value: Lent(\">\") }, Attribute { name: \"c\", value: Lent(\"'\") }], is_empty: false }), 18)
<a b='x&lt;%0D%0Ay%09z&#10;'/> => Good(StartTag(StartTag { name: \"a\", attributes: [Attribute { name: \"b\", value: Own(\"x< y z\\n\") }], is_empty: true }), 24)
<a b='&x;'> => Bad(BadReference, 11)
<a b='&x;'c> => Bad(BadMarkup, 12)
<a b='&'> => Bad(BadReference, 9)
<a b='<'> => Bad(BadMarkup, 9)
<a b='c'd='e'> => Bad(BadMarkup, 14)
<a b> => Bad(BadMarkup, 5)
<a b=c> => Bad(BadMarkup, 7)
<a / > => Bad(BadMarkup, 6)
<a b='> => Later
<a \"/> => Later
<a:b:c> => Bad(BadMarkup, 7)
<1> => Bad(BadMarkup, 3)
<> => Bad(BadMarkup, 2)
< a> => Bad(BadMarkup, 4)
<a b='%FF'> => Bad(NotUtf8, 9)
<a b='%EF%BF%BF'> => Bad(BadChar, 11)
</a> => Good(EndTag(\"a\"), 4)
</p:a > => Good(EndTag(\"p:a\"), 7)
</ a> => Bad(BadMarkup, 5)
</a b=''> => Bad(BadMarkup, 9)
</> => Bad(BadMarkup, 3)
</a/> => Bad(BadMarkup, 5)";

/// Tags that are a name alone, with their lengths, and other fronts.
const PLAIN: &str = "\
<a>x => 3 StartTag(StartTag { name: \"a\", attributes: [], is_empty: false })
<p:a-1/> => 8 StartTag(StartTag { name: \"p:a-1\", attributes: [], is_empty: true })
</p:_b.c><a> => 9 EndTag(\"p:_b.c\")
<a => other
<a/ => other
<a > => other
<a b='c'> => other
<é> => other
<1> => other
</a/> => other
<a:b:c> => other
<!----> => other
<?a?> => other
a> => other
< => other";

/// What begins at the start of the bytes, where they come one by one and the search is kept.
fn piece_by_piece(alloc: Global, bytes: &[u8]) -> Result<String, AllocError> {
    let mut search = Search::new();
    'ends: for end in 0..bytes.len() {
        let front = bytes.split_at(end + 1).0;
        match what_begins(alloc, Position::AtStart, false, front, &mut search) {
            Ok(Beginning::Later) => {}
            Ok(found) => return format!(in alloc; "{found:?}"),
            Err(error) => return Err(error),
        }
    }
    String::from_str(alloc, "Later")
}

/// What begins at the start of the bytes.
fn at_once(alloc: Global, bytes: &[u8]) -> Result<String, AllocError> {
    let mut search = Search::new();
    match what_begins(alloc, Position::AtStart, false, bytes, &mut search) {
        Ok(found) => format!(in alloc; "{found:?}"),
        Err(error) => Err(error),
    }
}

/// The tag at the start of the bytes, where it is a name alone.
fn shown_plainly(alloc: Global, bytes: &[u8]) -> Result<String, AllocError> {
    match plain_tag(bytes) {
        Some(tag) => {
            let token = tag.token(alloc);
            let shown = format!(in alloc; "{} {token:?}", tag.len);
            drop(token);
            shown
        }
        None => String::from_str(alloc, "other"),
    }
}

struct PlainTags;

impl Shown for PlainTags {
    fn shown(&self, alloc: Global, written: &'static str) -> Result<String, Fail> {
        let bytes = bytes_of(alloc, written)?;
        Ok(shown_plainly(alloc, bytes.as_slice())?)
    }
}

struct AtOnce;

impl Shown for AtOnce {
    fn shown(&self, alloc: Global, written: &'static str) -> Result<String, Fail> {
        let bytes = bytes_of(alloc, written)?;
        Ok(at_once(alloc, bytes.as_slice())?)
    }
}

struct PieceByPiece;

impl Shown for PieceByPiece {
    fn shown(&self, alloc: Global, written: &'static str) -> Result<String, Fail> {
        let bytes = bytes_of(alloc, written)?;
        Ok(piece_by_piece(alloc, bytes.as_slice())?)
    }
}

#[test]
fn tokens_begin(rt: HostRuntime) -> Result<(), Fail> {
    expect_shown(rt.alloc(), &AtOnce, " => ", STARTS)?;
    expect_shown(rt.alloc(), &PieceByPiece, " => ", STARTS)
}

#[test]
fn plain_tags_are_told(rt: HostRuntime) -> Result<(), Fail> {
    expect_shown(rt.alloc(), &PlainTags, " => ", PLAIN)
}
