//! Parameters and messages, by rows written by hand.

use schematron_texts::{Message, Parameters, replaced, replaced_within};
use std::alloc::{AllocError, Global};
use std::test::Fail;
use test_rows::{Shown, expect, expect_shown};

/// A text and what it becomes where `a` is `1`, `ab` is `$a` and `ü` is `x y`.
const REPLACED: &str = "\
$a|1
$ab|$a
$abc|$abc
$a-b $a.|$a-b $a.
$a+$a|1+1
$$a$|$1$
$ a|$ a
'$a'|'1'
$ü$üb|x y$üb
no parameter|no parameter";

/// The pieces of a message, and the message.
const MESSAGES: &str = "\
a|a
_a_b__|a b
_a_/_b|a b
a/b|ab
a_/_/_b/_|a b
__/_|
ü_/ß|ü ß";

fn push_all(alloc: Global, parameters: &mut Parameters) -> Result<(), AllocError> {
    parameters.push(alloc, "a", "1")?;
    parameters.push(alloc, "ab", "$a")?;
    parameters.push(alloc, "a", "2")?;
    parameters.push(alloc, "ü", "x y")?;
    parameters.push(alloc, "", "none")
}

#[derive(Clone, Copy)]
struct Texts<'a> {
    parameters: &'a Parameters,
}

impl Shown for Texts<'_> {
    fn shown(&self, alloc: Global, text: &'static str) -> Result<String, Fail> {
        Ok(replaced(alloc, self.parameters, text)?)
    }
}

fn fits(alloc: Global, parameters: &Parameters, text: &str) -> Result<bool, AllocError> {
    Ok(replaced_within(alloc, parameters, text, 4)?.is_some())
}

fn expect_replaced(alloc: Global, parameters: &mut Parameters) -> Result<(), Fail> {
    push_all(alloc, parameters)?;
    let row = Texts { parameters };
    expect_shown(alloc, &row, "|", REPLACED)?;
    expect(fits(alloc, parameters, "$ü!")?, "fits")?;
    expect(!fits(alloc, parameters, "$ü!!")?, "longer")
}

#[test]
fn parameters_are_replaced(rt: HostRuntime) -> Result<(), Fail> {
    let mut parameters = Parameters::new(rt.alloc());
    let held = expect_replaced(rt.alloc(), &mut parameters);
    drop(parameters);
    held
}

/// The characters of a piece, in which `_` stands for white space of several sorts.
fn spelled(alloc: Global, piece: &str) -> Result<String, AllocError> {
    let mut text = String::new(alloc);
    'characters: for c in piece.chars() {
        if c == '_' {
            text.push_str("\t \n")?;
        } else {
            text.push(c)?;
        }
    }
    Ok(text)
}

fn push_pieces(alloc: Global, message: &mut Message, pieces: &str) -> Result<(), AllocError> {
    'pieces: for piece in pieces.split('/') {
        let text = spelled(alloc, piece)?;
        message.push(text.as_str())?;
    }
    Ok(())
}

fn expect_message(alloc: Global, message: &mut Message, row: &'static str) -> Result<(), Fail> {
    let (pieces, want) = row.split_once('|').ok_or("row")?;
    message.clear();
    push_pieces(alloc, message, pieces)?;
    expect(message.as_str() == want, row)
}

fn expect_messages(alloc: Global, message: &mut Message) -> Result<(), Fail> {
    'rows: for row in MESSAGES.lines() {
        expect_message(alloc, message, row)?;
    }
    Ok(())
}

#[test]
fn messages_are_squeezed(rt: HostRuntime) -> Result<(), Fail> {
    let mut message = Message::new(rt.alloc());
    let held = expect_messages(rt.alloc(), &mut message);
    drop(message);
    held
}
