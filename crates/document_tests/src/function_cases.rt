//! Functions at the values of their arguments. The answers are those of cases from outside.

ghost use Rattle.std.specs.Prelude.{length};
ghost use Rattle.xpath_operators.specs.Nodes.{AllWithin};

use crate::asking::{Asked, expect_answers};
use crate::items::{arguments, shown};
use node_arena::Doc;
use std::alloc::Global;
use std::test::Fail;
use xpath_grammar::functions::{FUNCTIONS, Function, TYPES, takes};
use xpath_grammar::words::Worded;
use xpath_items::{Focus, Item, Seq};
use xpath_values::call;

// Each row: a function, its arguments, and the value or the code of the error.

/// The document that functions are called over.
const DOCUMENT: &str = "<r xmlns=\"urn:x\">a b</r>";

/// Functions on numbers.
const NUMBER_ROWS: &str = "\
round:#2.5 -> #3
round:#-2.5 -> #-2
round:#-1.5 -> #-1
round:#-1.51 -> #-2
round:#999999999999999999.5 -> FOAR0002
round:#999999999999999999.4 -> #999999999999999999
round: -> 
round:^2024-01-01 -> XPTY0004
floor:#2.7 -> #2
floor:#-2.1 -> #-3
floor:#-999999999999999999.5 -> FOAR0002
ceiling:#-2.9 -> #-2
ceiling:#-0.5 -> #0
ceiling:#999999999999999999.1 -> FOAR0002
abs:~-3 -> #3
abs: -> 
abs:'1 -> XPTY0004
abs:true -> XPTY0004
abs:#1,#2 -> XPTY0004";

/// Functions on sequences, and without arguments.
const SEQUENCE_ROWS: &str = "\
true -> true
false -> false
position -> #3
last -> #7
not: -> true
not:^2024-01-01 -> FORG0006
boolean: -> false
boolean:@ -> true
boolean:#1,@ -> FORG0006
boolean:'false -> true
boolean:#0 -> false
boolean:#0.1 -> true
boolean:',' -> FORG0006
exists: -> false
exists:#0 -> true
empty: -> true
count: -> #0
count:#1,'a,@ -> #3
reverse: -> 
reverse:#1,#2,@ -> @,#2,#1
data:@,#1 -> ~a b,#1
string:#1.50 -> '1.5
string:^2024-02-29 -> '2024-02-29
string:'a -> 'a
string:#-0.50 -> '-0.5
string:#1,#2 -> XPTY0004
string: -> '
string:@ -> 'a b
string -> 'a b
string-length -> #3
normalize-space -> 'a b
local-name -> 'r
namespace-uri -> 'urn:x
local-name:@ -> 'r
local-name:/ -> '
local-name: -> '
local-name:'r -> XPTY0004
namespace-uri:@ -> 'urn:x
namespace-uri:@,@ -> XPTY0004";

/// `concat`, `string-join` and `substring`.
const JOINING_ROWS: &str = "\
concat:| -> '
concat:'a|#1|true -> 'a1true
concat:'a,'b|'c -> XPTY0004
string-join:'a,'b,~c|'- -> 'a-b-c
string-join:|'- -> '
string-join:'a|'- -> 'a
string-join:'a,#1|' -> XPTY0004
string-join:'a,true|' -> XPTY0004
string-join:'a,'b| -> 'ab
string-join:'a,'b|'x,'y -> XPTY0004
substring:'12345|#2 -> '2345
substring:'12345|#2|#3 -> '234
substring:'12345|#1.5|#2.6 -> '234
substring:'12345|#0|#3 -> '12
substring:'12345|#-1 -> '12345
substring:'12345|#-1|#3 -> '1
substring:'12345|#2|#0 -> '
substring:'12345|#2|#-1 -> '
substring:'12345|#999999999999999999|#999999999999999999 -> '
substring:'12345|#-999999999999999999|#999999999999999999 -> '
substring:'12345|#-999999999999999999.5|#999999999999999999.5 -> '
substring:'12345|#-999999999999999998|#999999999999999999.5 -> '1
substring:'a\u{1f600}b|#2|#1 -> '\u{1f600}
substring:'abc| -> XPTY0004
substring:'abc|#1,#2 -> XPTY0004
substring:#1|#1 -> XPTY0004
substring:'a,'b|#1 -> XPTY0004";

/// Functions on one text.
const TEXT_ROWS: &str = "\
string-length:'abc -> #3
string-length:' -> #0
string-length: -> #0
string-length:#5 -> XPTY0004
string-length:'a,'b -> XPTY0004
normalize-space:'  a   b  -> 'a b
normalize-space: -> '
normalize-space:#5 -> XPTY0004
upper-case:'abcX\u{e4}1 -> 'ABCX\u{e4}1
lower-case:'ABCx\u{c9}1 -> 'abcx\u{c9}1
translate:'bar|'abc|'AB -> 'BAr
translate:|'a|'b -> '
translate:'abc|| -> 'abc
translate:'abc|'a|#1 -> XPTY0004";

/// Pieces of texts.
const FINDING_ROWS: &str = "\
contains:'abc|' -> true
contains:'|'a -> false
contains:| -> true
contains:'abc|#1 -> XPTY0004
contains:' 71 72 |' 71  -> true
starts-with:'abc|'ab -> true
starts-with:'abc|'b -> false
starts-with:'abc|' -> true
starts-with:|' -> true
starts-with:'|'a -> false
ends-with:'abc|'bc -> true
ends-with:'abc|'b -> false
ends-with:'bc|'abc -> false
ends-with:'a| -> true
matches:'DE123|'^[A-Z]{2}[0-9]+$ -> true
matches:'xDE1|'^DE -> false
matches:|'^$ -> true
matches:'a|'[ -> false
substring-before:'abc|'b -> 'a
substring-before:|'a -> '
substring-before:'abc|#1 -> XPTY0004
substring-after:'abc|' -> 'abc
substring-after:'abc|'c -> '
substring-after:'abc| -> 'abc";

/// Sums, extremes and distinct values.
const TOTAL_ROWS: &str = "\
sum:#1,~2,#3 -> #6
sum: -> #0
sum:#1,'a -> FORG0006
sum:#1,~a -> FORG0001
sum:#999999999999999999,#1 -> FOAR0002
sum:#999999999999999999,#1,#-1 -> FOAR0002
sum:#999999999999999999,#-1,#1 -> #999999999999999999
max: -> 
max:#3,#1,#2 -> #3
max:'b,'a -> 'b
min:^2024-01-02,^2024-01-01 -> ^2024-01-01
max:^2024-01-02,^2024-01-01 -> ^2024-01-02
min:#1,'a -> FORG0006
max:#1,^2024-01-01 -> FORG0006
max:'a,'B,'\u{e9} -> '\u{e9}
min:true -> FORG0006
min:~10,~9 -> #9
distinct-values:#1,#2,#1,#1.0 -> #1,#2
distinct-values:#1,'1 -> #1,'1
distinct-values:~1,'1,~01 -> ~1,~01
distinct-values:true,true,#1,'true -> true,#1,'true
distinct-values:^2024-01-01,^2024-01-01 -> ^2024-01-01
distinct-values:#3,#1,#2,#3,#1,#2,#3,#1,~1,'1,#2 -> #3,#1,#2,~1";

/// The same for the functions of types.
const TYPE_ROWS: &str = "\
string: -> 
string:#1.0 -> '1
string:true -> 'true
string:^2024-02-29 -> '2024-02-29
string:#1,#2 -> XPTY0004
decimal:'. -> FORG0001
decimal:' -> FORG0001
decimal:'1e3 -> FORG0001
decimal:'0000000000000000000000001 -> #1
decimal:'0.0000000000000000001 -> FORG0001
decimal:' 999999999999999999.999999999999999999  -> #999999999999999999.999999999999999999
decimal:true -> #1
decimal:false -> #0
decimal:#1,#2 -> XPTY0004
decimal:^2024-01-01 -> XPTY0004
integer:' -012  -> #-12
integer:'+5 -> #5
integer:'1.0 -> FORG0001
integer:'1. -> FORG0001
integer:'999999999999999999 -> #999999999999999999
integer:'1000000000000000000 -> FORG0001
integer:#1.9 -> #1
integer:#-1.9 -> #-1
integer:^2024-01-01 -> XPTY0004
date:'2024-02-29 -> ^2024-02-29
date:'2024-2-9 -> FORG0001
date:'2024-02-30 -> FORG0001
date:'0000-01-01 -> FORG0001
date:'9999-12-31 -> ^9999-12-31
date:true -> XPTY0004
boolean:'true -> true
boolean:~ 0  -> false
boolean:'yes -> FORG0001
boolean:#0 -> false
boolean:^2024-01-01 -> XPTY0004
boolean:true,true -> XPTY0004";

/// The function of the word.
fn function_of(functions: &[Function], word: &str) -> Option<Function> {
    for function in functions {
        if function.word() == word {
            return Some(*function);
        }
    }
    None
}

/// What a function gives at its arguments.
fn called<'a>(
    alloc: Global,
    doc: &Doc<'a>,
    function: Function,
    arguments: &[Seq<'a>],
) -> Result<String, Fail>
    requires { AllWithin (length doc.now.nodes) arguments.now }
{
    if !takes(function, arguments.len()) {
        return Err("arguments".into());
    }
    let focus = Focus {
        item: Item::Node(doc.root()),
        position: 3,
        last: 7,
    };
    let outcome = call(alloc, doc, function, &focus, arguments);
    drop(focus);
    let outcome = outcome?;
    let shown = shown(alloc, &outcome);
    drop(outcome);
    Ok(shown?)
}

/// Functions, of which a row calls one.
#[derive(Drop)]
struct Calls<'a> {
    functions: &'a [Function],
}

impl Asked for Calls<'_> {
    fn answer(&self, alloc: Global, doc: &Doc<'_>, given: &'static str) -> Result<String, Fail> {
        let (word, text) = match given.split_once(':') {
            Some((word, text)) => (word, Some(text)),
            None => (given, None),
        };
        let function = function_of(self.functions, word).ok_or("function")?;
        let arguments = arguments(alloc, doc, text)?;
        let shown = called(alloc, doc, function, arguments.as_slice());
        drop(arguments);
        shown
    }
}

fn expect_calls(alloc: Global, functions: &[Function], rows: &'static str) -> Result<(), Fail> {
    expect_answers(alloc, &Calls { functions }, DOCUMENT, rows)
}

#[test]
fn functions_on_numbers(rt: HostRuntime) -> Result<(), Fail> {
    expect_calls(rt.alloc(), &FUNCTIONS, NUMBER_ROWS)
}

#[test]
fn functions_on_sequences(rt: HostRuntime) -> Result<(), Fail> {
    expect_calls(rt.alloc(), &FUNCTIONS, SEQUENCE_ROWS)
}

#[test]
fn joining_and_substrings(rt: HostRuntime) -> Result<(), Fail> {
    expect_calls(rt.alloc(), &FUNCTIONS, JOINING_ROWS)
}

#[test]
fn functions_on_texts(rt: HostRuntime) -> Result<(), Fail> {
    expect_calls(rt.alloc(), &FUNCTIONS, TEXT_ROWS)
}

#[test]
fn pieces_of_texts(rt: HostRuntime) -> Result<(), Fail> {
    expect_calls(rt.alloc(), &FUNCTIONS, FINDING_ROWS)
}

#[test]
fn totals_and_distinct_values(rt: HostRuntime) -> Result<(), Fail> {
    expect_calls(rt.alloc(), &FUNCTIONS, TOTAL_ROWS)
}

#[test]
fn types_read_texts(rt: HostRuntime) -> Result<(), Fail> {
    expect_calls(rt.alloc(), &TYPES, TYPE_ROWS)
}
