//! Queries over files and outputs in memory.

use crate::cases::{Case, answers_number, case_of, printing, telling};
use crate::texts::{columns, spelled};
use std::alloc::{AllocError, Global};
use std::test::Fail;
use test_rows::{Holds, expect_rows};

const DOCUMENT: &[u8] =
    b"<r xmlns:p=\"u'v\" a=\"1\"><p:x/>one<x>2.50</x><p:x b=\"&quot;\">three</p:x><x>2.5</x></r>";

/// Of each row the expression, the number of the status, what is written to the output, and the line on the error
/// output. `␊` stands for LF.
const QUERIES: &str = r#"1 + 1→0→2␊
//x→0→/*:r[namespace-uri()=''][1]/*:x[namespace-uri()=''][1] "2.50"␊/*:r[namespace-uri()=''][1]/*:x[namespace-uri()=''][2] "2.5"␊
r/*[3]/@b→0→/*:r[namespace-uri()=''][1]/*:x[namespace-uri()='u''v'][2]/@*:b[namespace-uri()=''] "\""␊
r/text()→0→/*:r[namespace-uri()=''][1]/text()[1] "one"␊
string(/)→0→"one2.50three2.5"␊
/→0→/ "one2.50three2.5"␊
sum(//x), data(r/@a), r/x = 2.5, xs:date('2024-02-29')→0→5␊"1"␊true␊2024-02-29␊
()→0→
for $x in //x return xs:integer($x)→0→error FORG0001␊
'a' + 1→4→→expression: SureTypeError 0
1 # 2→4→→expression: Lexical 2
cbc:ID, q:ID→4→→expression: UndeclaredPrefix 2
--1→2→→bad word 2"#;

fn is_evaluated(alloc: Global, row: &str) -> Result<bool, AllocError> {
    let [expression, number, out, told, _] = columns(row, '→');
    let case = Case {
        words: ["query", expression, "f"],
        between: '\n',
        ..case_of("", DOCUMENT)
    };
    answers_number(alloc, &telling(printing(case, out), told), number)
}

struct Queries;

impl Holds for Queries {
    fn holds(&self, alloc: Global, row: &'static str) -> Result<bool, Fail> {
        let text = spelled(alloc, row)?;
        Ok(is_evaluated(alloc, text.as_str())?)
    }
}

#[test]
fn expressions_are_evaluated_at_the_document(rt: HostRuntime) -> Result<(), Fail> {
    expect_rows(rt.alloc(), &Queries, QUERIES)
}
