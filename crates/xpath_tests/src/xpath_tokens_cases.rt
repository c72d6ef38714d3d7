//! The tokens of texts, and their refusals.

use crate::made::{Made, expect_made};
use crate::nestings::expect_nestings;
use std::alloc::{AllocError, Global};
use std::test::Fail;
use xpath_tokens::tokens;

/// The tokens of a text or its refusal, as they are printed for debugging.
pub(crate) fn push_tokens(alloc: Global, line: &mut String, text: &str) -> Result<(), AllocError> {
    match tokens(alloc, text) {
        Ok(tokens) => {
            let pushed = write!(line, "{tokens:?}");
            drop(tokens);
            pushed
        }
        Err(fault) => write!(line, "{fault:?}"),
    }
}

/// How many tokens a text has, or its refusal.
pub(crate) fn push_count(alloc: Global, line: &mut String, text: &str) -> Result<(), AllocError> {
    match tokens(alloc, text) {
        Ok(tokens) => {
            let count = tokens.len();
            drop(tokens);
            write!(line, "{count}")
        }
        Err(fault) => write!(line, "{fault:?}"),
    }
}

/// What each word is by itself: names, numbers, strings, signs, comments.
const WORDS: &str = r#" → []
a:b → [Name(Prefixed("a", "b"))]
*:a/b:* → [Name(AnyPrefix("a")), Operator(Slash), Name(AnyLocal("b"))]
é-1.x → [Name(Plain("é-1.x"))]
a::b → [Name(Plain("a")), DoubleColon, Name(Plain("b"))]
'it''s' → [Literal("it's")]
"a""b'" → [Literal("a\"b'")]
'' → [Literal("")]
5. → [Number(Number { whole: 5, fraction: 0 })]
.05 → [Number(Number { whole: 0, fraction: 50000000000000000 })]
000999999999999999999.000000000000000001 → [Number(Number { whole: 999999999999999999, fraction: 1 })]
10div 3 → [Number(Number { whole: 10, fraction: 0 }), Operator(Div), Number(Number { whole: 3, fraction: 0 })]
1e → [Number(Number { whole: 1, fraction: 0 }), Name(Plain("e"))]
(: (: :) x :)1(::) → [Number(Number { whole: 1, fraction: 0 })]
(:: (: a :) b → [LeftParenthesis, DoubleColon, Name(Plain("b"))]
( )[ ],@::$...? → [LeftParenthesis, RightParenthesis, LeftBracket, RightBracket, Comma, At, DoubleColon, Dollar, DoubleDot, Dot, Question]
/ // | + - = != < <= > >= → [Operator(Slash), Operator(DoubleSlash), Operator(Bar), Operator(Plus), Operator(Minus), Operator(Equal), Operator(NotEqual), Operator(Less), Operator(LessOrEqual), Operator(Greater), Operator(GreaterOrEqual)]"#;

#[test]
fn words_by_themselves(rt: HostRuntime) -> Result<(), Fail> {
    expect_made(rt.alloc(), Made::Tokens, WORDS)
}

/// What a word is by the token before it and the word behind it.
const PLACES: &str = r#"* * * → [Star, Operator(Times), Star]
div div div → [Name(Plain("div")), Operator(Div), Name(Plain("div"))]
$as cast as as? → [Dollar, Name(Plain("as")), Operator(Cast), Operator(As), Name(Plain("as")), Question]
as castable as a → [Name(Plain("as")), Operator(Castable), Operator(As), Name(Plain("a"))]
if (for) for$a → [Keyword(If), LeftParenthesis, Name(Plain("for")), RightParenthesis, Name(Plain("for")), Dollar, Name(Plain("a"))]
some $a in b → [Keyword(Some), Dollar, Name(Plain("a")), Operator(In), Name(Plain("b"))]
a | b union c → [Name(Plain("a")), Operator(Bar), Name(Plain("b")), Operator(Union), Name(Plain("c"))]
@a/attribute::a → [At, Name(Plain("a")), Operator(Slash), Name(Plain("attribute")), DoubleColon, Name(Plain("a"))]
instance of → [Name(Plain("instance")), Name(Plain("of"))]
a comment() → [Name(Plain("a")), Name(Plain("comment")), LeftParenthesis, RightParenthesis]"#;

#[test]
fn words_by_their_places(rt: HostRuntime) -> Result<(), Fail> {
    expect_made(rt.alloc(), Made::Tokens, PLACES)
}

/// The first refusal of a text.
const REFUSALS: &str = "\
1 # 2 → Lexical(2)
(: x → Lexical(1)
(:) → Lexical(1)
'it''s → Lexical(4)
'abc → Lexical(0)
a:b:c → Lexical(3)
a :b → Lexical(2)
* :a → Lexical(2)
'é€' # 1 → Lexical(5)
1\u{a0}+ 2 → Lexical(1)
1234567890123456789 # → Lexical(20)
1234567890123456789 → NumberTooWide
1000000000000000000 → NumberTooWide
0.1000000000000000000 → NumberTooWide
1e3 + 1234567890123456789 → NumberTooWide
1e3 → Unsupported(0)
1234567890123456789e1 → Unsupported(0)
(1.5e+10) → Unsupported(1)
1 is 2 → Unsupported(1)
1 foo is 2 → Unsupported(2)
1 <<= 2 → Unsupported(1)
1 treat as xs:integer → Unsupported(1)
1 instance of a → Unsupported(1)
namespace::a → Unsupported(0)
@comment() → Unsupported(1)
schema-attribute(a) → Unsupported(0)";

#[test]
fn refusals(rt: HostRuntime) -> Result<(), Fail> {
    expect_made(rt.alloc(), Made::Tokens, REFUSALS)
}

/// The longest texts, also those on which a reader that looks far ahead at each place never ends.
const LONG: &str = "\
65536|(|||0 → 65536
65536|(|)||0 → TooLong
65537|#|||0 → TooLong
32768|é|||0 → 1
21845|(::|||0 → 43690
21843|(::|(: :)||0 → 43686
21845|(: |||0 → Lexical(1)
32768|''|||0 → 1
21845|'a'|'||0 → Lexical(65535)
32768|1.|||0 → 32768
65535|0|1||0 → 1
16384|a:b |||0 → 16384";

#[test]
fn long_texts(rt: HostRuntime) -> Result<(), Fail> {
    expect_nestings(rt.alloc(), Made::Count, LONG)
}
