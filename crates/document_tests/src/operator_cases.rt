//! Operators on atomised operands. The answers are those of cases from outside.

ghost use Rattle.std.specs.Prelude.{length};
ghost use Rattle.xpath_operators.specs.Nodes.{AreWithin};

use crate::asking::{Asked, expect_answers};
use crate::items::{sequence, shown, shown_items};
use node_arena::Doc;
use std::alloc::{AllocError, Global};
use std::test::Fail;
use test_rows::expect;
use xpath_grammar::functions::Function;
use xpath_grammar::operators::{CastWord, Op};
use xpath_items::{DynError, Fault, Item, Seq};
use xpath_operators::{arithmetic, atomise, cast, compared, outcome, range, signed, truth};
use xpath_tokens::token::Operator;

/// An operator, its operands, and the value or the code of the error.
const ROWS: &str = "\
=:#1|#1.0 -> true
=:|#1 -> false
!=:#1,#2|#1,#2 -> true
=:~10|#10 -> true
=:~x|#10 -> FORG0001
=:~10|'10 -> true
=:#1|'1 -> XPTY0004
=:~2024-02-29|^2024-02-29 -> true
<:~2024-2-29|^2024-02-29 -> FORG0001
<:~10|~9 -> true
<:~10|#9 -> false
=:~ true |true -> true
=:#1,'a|'a -> XPTY0004
<=:'\u{fffd}|'\u{1f600} -> true
eq:~1|#1 -> XPTY0004
eq:~a|'a -> true
eq:| -> 
eq:#1,#2|#1 -> XPTY0004
lt:false|true -> true
gt:^2024-01-01|^2023-12-31 -> true
+:~0.1|#0.2 -> #0.3
+:#999999999999999999.999999999999999999|#0.000000000000000001 -> FOAR0002
-:#-999999999999999999|#1 -> FOAR0002
*:#0.000000001|#0.000000001 -> #0.000000000000000001
div:#1|#3 -> #0.333333333333333333
div:#1|#0 -> FOAR0001
idiv:#-7|#2 -> #-3
mod:#-7|#2 -> #-1
+:|#1,#2 -> 
+:#1|#1,#2 -> XPTY0004
+:~x|'a -> FORG0001
to:#1|#3 -> #1,#2,#3
to:#3|#1 -> 
to:#1.5|#3 -> XPTY0004
to:#1|#100001 -> FOAR0002
to:~-1|#0 -> #-1,#0";

/// The same over operands of eight items, most of which are compared without trying pairs.
const LONG_ROWS: &str = "\
=:#1,#2,#3,#4,#5,#6,#7,#8|#11,#12,#13,#14,#15,#16,#17,#8 -> true
=:#1,#2,#3,#4,#5,#6,#7,#8|#11,#12,#13,#14,#15,#16,#17,#18 -> false
!=:#1,#1,#1,#1,#1,#1,#1,#1|#1.0,#1.0,#1.0,#1.0,#1.0,#1.0,#1.0,#1.0 -> false
!=:#1,#1,#1,#1,#1,#1,#1,#1|#1,#1,#1,#1,#1,#1,#1,#2 -> true
<:#8,#9,#10,#11,#12,#13,#14,#15|#1,#2,#3,#4,#5,#6,#7,#8 -> false
<:#8,#9,#10,#11,#12,#13,#14,#15|#9,#1,#2,#3,#4,#5,#6,#7 -> true
<=:#8,#9,#10,#11,#12,#13,#14,#15|#1,#2,#3,#4,#5,#6,#7,#8 -> true
<:'k,'l,'m,'n,'o,'p,'q,'r|'a,'b,'c,'d,'e,'f,'g,'k -> false
=:~8,~x,~1,~2,~3,~4,~5,~6|#11,#12,#13,#14,#15,#16,#17,#8 -> true
=:~x,~8,~1,~2,~3,~4,~5,~6|#11,#12,#13,#14,#15,#16,#17,#8 -> FORG0001
=:#1,#2,#3,#4,#5,#6,#7,#8|#11,#12,#13,#14,#15,#16,#17,'a -> XPTY0004
=:#1,#2,#3,#4,#5,#6,#7,#8|#1,#11,#12,#13,#14,#15,#16,'a -> true
=:~a,~b,~c,~d,~e,~f,~g,~h|'k,'l,'m,'n,'o,'p,'q,'h -> true";

/// The comparison of the word.
fn comparison_of(word: &str) -> Option<Op> {
    match word {
        "=" => Some(Op::Equal),
        "!=" => Some(Op::NotEqual),
        "<" => Some(Op::Less),
        "<=" => Some(Op::LessOrEqual),
        "eq" => Some(Op::Eq),
        "lt" => Some(Op::Lt),
        "gt" => Some(Op::Gt),
        _ => None,
    }
}

/// The operation of the word.
fn operation_of(word: &str) -> Operator {
    match word {
        "+" => Operator::Plus,
        "-" => Operator::Minus,
        "*" => Operator::Times,
        "div" => Operator::Div,
        "idiv" => Operator::Idiv,
        _ => Operator::Mod,
    }
}

/// What the operator of the word gives.
fn operated<'a>(
    alloc: Global,
    word: &str,
    left: &[Item<'a>],
    right: &[Item<'a>],
) -> Result<Seq<'a>, Fault> {
    if word == "to" {
        return range(alloc, left, right);
    }
    match comparison_of(word) {
        Some(op) => compared(alloc, op, left, right),
        None => arithmetic(alloc, operation_of(word), left, right),
    }
}

/// What was found, as rows write it.
fn shown_found(alloc: Global, found: Result<Seq<'_>, Fault>) -> Result<String, AllocError> {
    let outcome = outcome(found)?;
    let shown = shown(alloc, &outcome);
    drop(outcome);
    shown
}

fn operated_with(
    alloc: Global,
    doc: &Doc<'_>,
    word: &str,
    left: &[Item<'_>],
    right: &str,
) -> Result<String, Fail> {
    let right = sequence(alloc, doc, right)?;
    let shown = shown_found(alloc, operated(alloc, word, left, right.as_slice()));
    drop(right);
    Ok(shown?)
}

/// What the operator of a row gives.
struct Operations;

impl Asked for Operations {
    fn answer(&self, alloc: Global, doc: &Doc<'_>, given: &'static str) -> Result<String, Fail> {
        let (word, operands) = given.split_once(':').ok_or("word")?;
        let (left, right) = operands.split_once('|').ok_or("operands")?;
        let left = sequence(alloc, doc, left)?;
        let shown = operated_with(alloc, doc, word, left.as_slice(), right);
        drop(left);
        shown
    }
}

#[test]
fn operators_give_their_values(rt: HostRuntime) -> Result<(), Fail> {
    expect_answers(rt.alloc(), &Operations, "<r/>", ROWS)?;
    expect_answers(rt.alloc(), &Operations, "<r/>", LONG_ROWS)
}

/// A value with a row of signs.
fn shown_signed(alloc: Global, items: &[Item<'_>]) -> Result<String, AllocError> {
    let signs = [
        Operator::Minus,
        Operator::Plus,
        Operator::Minus,
        Operator::Minus,
    ];
    shown_found(alloc, signed(alloc, &signs, items))
}

/// Whether a value may be cast to a date.
fn shown_castable(alloc: Global, doc: &Doc<'_>, items: &[Item<'_>]) -> Result<String, AllocError>
    requires { AreWithin (length doc.now.nodes) items.now }
{
    let word = CastWord::Castable;
    shown_found(
        alloc,
        cast(alloc, doc, word, Function::XsDate, false, items),
    )
}

fn signed_and_cast(alloc: Global, doc: &Doc<'_>, items: &[Item<'_>]) -> Result<String, AllocError>
    requires { AreWithin (length doc.now.nodes) items.now }
{
    let mut shown = shown_signed(alloc, items)?;
    shown.push_str(" ")?;
    shown.push_str(shown_castable(alloc, doc, items)?.as_str())?;
    Ok(shown)
}

/// A value with signs, and whether it may be cast.
struct SignedAndCast;

impl Asked for SignedAndCast {
    fn answer(&self, alloc: Global, doc: &Doc<'_>, given: &'static str) -> Result<String, Fail> {
        let items = sequence(alloc, doc, given)?;
        let shown = signed_and_cast(alloc, doc, items.as_slice());
        drop(items);
        Ok(shown?)
    }
}

#[test]
fn signs_turn_and_casts_are_tried(rt: HostRuntime) -> Result<(), Fail> {
    expect_answers(rt.alloc(), &SignedAndCast, "<r/>", "~2 -> #-2 false")
}

/// A value, atomised.
struct Atomised;

impl Asked for Atomised {
    fn answer(&self, alloc: Global, doc: &Doc<'_>, given: &'static str) -> Result<String, Fail> {
        let items = sequence(alloc, doc, given)?;
        let atoms = atomise(alloc, doc, &items);
        drop(items);
        let atoms = atoms?;
        let shown = shown_items(alloc, atoms.as_slice());
        drop(atoms);
        Ok(shown?)
    }
}

#[test]
fn nodes_are_atomised(rt: HostRuntime) -> Result<(), Fail> {
    let document = r#"<r k="v">a<b>c</b></r>"#;
    expect_answers(rt.alloc(), &Atomised, document, "@,'x -> ~ac,'x")
}

/// Whether nothing is false, one `true` is true, and two have no truth.
fn have_their_truth(items: &mut Seq<'_>) -> Result<bool, AllocError> {
    let of_none = truth(items) == Ok(false);
    items.push(Item::Boolean(true))?;
    let of_one = truth(items) == Ok(true);
    items.push(Item::Boolean(true))?;
    let of_two = truth(items) == Err(DynError::FORG0006);
    Ok(of_none & of_one & of_two)
}

#[test]
fn values_have_a_truth(rt: HostRuntime) -> Result<(), Fail> {
    let mut items = Seq::new(rt.alloc());
    let holds = have_their_truth(&mut items);
    drop(items);
    expect(holds?, "truth")
}
