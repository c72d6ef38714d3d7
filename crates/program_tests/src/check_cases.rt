//! Checks over files and outputs in memory.

use crate::cases::{Case, answers_number, case_of, printing, telling};
use crate::texts::{columns, spelled};
use std::alloc::{AllocError, Global};
use std::test::Fail;
use test_rows::{Holds, expect_rows};

const DOCUMENT: &[u8] = b"<r><x>2.50</x><x>1</x></r>";

/// Of each row the options, with commas between them, the number of the status, what is written to the output, and the
/// line on the error output. `␊` stands for LF.
const CHECKS: &str =
    r#"--rules,sums→1→failed A /*:r[namespace-uri()=''][1] "the sum is 3.5"␊reported B /*:r[namespace-uri()=''][1]/*:x[namespace-uri()=''][2] "one"␊failed 1, reported 1, errors 0, minor 0␊
--phase,one,--rules,sums→0→reported B /*:r[namespace-uri()=''][1]/*:x[namespace-uri()=''][2] "one"␊failed 0, reported 1, errors 0, minor 0␊
--rules,minor,--phase,one,--rules,sums→0→information - /*:r[namespace-uri()=''][1]/*:x[namespace-uri()=''][1] "light"␊reported B /*:r[namespace-uri()=''][1]/*:x[namespace-uri()=''][2] "one"␊failed 0, reported 1, errors 0, minor 1␊
--rules,minor,--rules,weights→1→information - /*:r[namespace-uri()=''][1]/*:x[namespace-uri()=''][1] "light"␊warning - /*:r[namespace-uri()=''][1]/*:x[namespace-uri()=''][1] "light"␊error FOAR0001 - /*:r[namespace-uri()=''][1]/*:x[namespace-uri()=''][1] "heavy"␊failed 0, reported 0, errors 1, minor 2␊
--svrl,--rules,minor→0→<?xml version="1.0" encoding="UTF-8"?>␊<svrl:schematron-output xmlns:svrl="http://purl.oclc.org/dsdl/svrl"><svrl:active-pattern id="p"/><svrl:fired-rule context="x[1]"/><svrl:failed-assert test=". = 1" location="/*:r[namespace-uri()=''][1]/*:x[namespace-uri()=''][1]" role="information"><svrl:text>light</svrl:text></svrl:failed-assert></svrl:schematron-output>␊
--rules,sums,--rules,bad→4→→bad: Expression at 101 test: Lexical 2
--rules,sums,--rules,text→4→→text: TextOutside at 0
--rules,f→4→→f: NotSchematron at 0 -
--rules,sums,--rules,weights,--phase,one→4→→weights: NoPhase one
--rules,sums,--rules,none→6→→none: read fault
--rules,sums,--svrl,--svrl→2→→bad word 5"#;

fn is_checked(alloc: Global, row: &str) -> Result<bool, AllocError> {
    let [options, number, out, told, _] = columns(row, '→');
    let case = Case {
        words: ["check", options, "f"],
        between: ',',
        ..case_of("", DOCUMENT)
    };
    answers_number(alloc, &telling(printing(case, out), told), number)
}

struct Checks;

impl Holds for Checks {
    fn holds(&self, alloc: Global, row: &'static str) -> Result<bool, Fail> {
        let text = spelled(alloc, row)?;
        Ok(is_checked(alloc, text.as_str())?)
    }
}

#[test]
fn rule_files_judge_the_document(rt: HostRuntime) -> Result<(), Fail> {
    expect_rows(rt.alloc(), &Checks, CHECKS)
}
