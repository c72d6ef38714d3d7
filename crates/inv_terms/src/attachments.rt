ghost use Rattle.std.specs.Prelude.{◌≡◌, ◌≢◌, Ok, Err, Some, None, IfOk, IfErr, chars, encode_utf8_all, option_copied, slice_get, string_bytes};
ghost use Rattle.inv_terms.specs.Attachments as spec;
ghost use Rattle.inv_terms.specs.declared.attachments.AttachFault.TheVariants.{Memory, NotBase64, WriteFault};

use crate::entries::Entry;
use crate::invoice::Invoice;
use crate::values::Value;
use base64::DecodeAllocError;
use base64::engine::general_purpose::STANDARD;
use inv_base::{Sink, Txt, is_white_space, write_all};
use std::alloc::{AllocError, Global};
use term_table::Term;
use thiserror::Error;

/// Why an attached document wasn't written.
#[derive(Debug, Drop, Error)]
pub enum AttachFault {
    /// It has no document of that number.
    #[error("no such attachment")]
    NoSuch,
    /// Its text, without white space, is the encoding of no bytes.
    #[error("not base64")]
    NotBase64,
    /// The output failed.
    #[error("write fault")]
    WriteFault,
    /// There is no memory for its bytes.
    #[error("out of memory")]
    Memory,
}

const ATTACHED_DOCUMENT: Term = Term {
    number: 125,
    part: 0,
};

fn base64_in(value: &Value) -> Option<&Txt>
    ensures { option_copied result ≡ spec.base64_in value.now }
{
    match value {
        Value::Base64(text) => Some(text),
        Value::Text(_) => None,
        Value::Identifier(_) => None,
        Value::Code(_) => None,
        Value::Amount(_) => None,
        Value::Quantity(_) => None,
        Value::Percent(_) => None,
        Value::Date(_) => None,
    }
}

fn document_in(e: &Entry) -> Option<&Txt>
    ensures { option_copied result ≡ spec.document_in e.now }
{
    if e.term.is_same(ATTACHED_DOCUMENT) {
        base64_in(&e.value)
    } else {
        None
    }
}

// The n-th attached document, from 0.
fn nth_document(entries: &[Entry], n: u32) -> Option<&Txt>
    ensures { option_copied result ≡ slice_get (spec.documents entries.now) n }
{
    let mut left = n;
    'entries: for e in entries {
        if let Some(text) = document_in(e) {
            if left == 0 {
                return Some(text);
            }
            left -= 1;
        }
    }
    None
}

// The k-th attached document, from 1.
fn document(entries: &[Entry], k: u32) -> Option<&Txt>
    ensures { option_copied result ≡ spec.document entries.now k }
{
    if k == 0 {
        return None;
    }
    nth_document(entries, k - 1)
}

fn without_white_space(alloc: Global, text: &str) -> Result<String, AllocError>
    ensures { IfOk result (λ bare. string_bytes bare ≡ encode_utf8_all (spec.without_white_space (chars text.now))) }
{
    let bare: String = text.chars().filter(|c| !is_white_space(*c)).collect(alloc)?;
    Ok(bare)
}

// The bytes whose encoding the text is.
fn decoded(alloc: Global, text: &[u8]) -> Result<Vec<u8>, AttachFault>
    ensures ok { IfOk result (λ bytes. spec.decoded text.now ≡ Some bytes.items) }
    ensures fault { IfErr result (λ fault. fault ≢ Memory → (fault ≡ NotBase64) × (spec.decoded text.now ≡ None)) }
{
    let bytes = match STANDARD.decode(alloc, text) {
        Ok(bytes) => bytes,
        Err(DecodeAllocError::DecodeError(_)) => return Err(AttachFault::NotBase64),
        Err(DecodeAllocError::OutOfMemory) => return Err(AttachFault::Memory),
    };
    match STANDARD.encode(alloc, bytes.as_slice()) {
        Ok(again) => {
            if again.as_bytes() == text {
                Ok(bytes)
            } else {
                Err(AttachFault::NotBase64)
            }
        }
        Err(_) => Err(AttachFault::Memory),
    }
}

// The bytes of a base64 text.
fn bytes_of(alloc: Global, text: &str) -> Result<Vec<u8>, AttachFault>
    ensures ok { IfOk result (λ bytes. spec.bytes_of (chars text.now) ≡ Ok bytes.items) }
    ensures fault { IfErr result (λ fault. fault ≢ Memory → (fault ≡ NotBase64) × (spec.bytes_of (chars text.now) ≡ Err NotBase64)) }
{
    match without_white_space(alloc, text) {
        Ok(bare) => decoded(alloc, bare.as_bytes()),
        Err(_) => Err(AttachFault::Memory),
    }
}

/// Writes the bytes of the k-th attached document (BT-125), from 1. Its text, without white space, is base64 by the
/// standard alphabet and with padding, and bits left over at its end are zero. Nothing is written where there is no
/// such document, and nothing where its text isn't base64; behind a write fault a front of the bytes is.
pub fn attachment<K: Sink>(
    alloc: Global,
    i: &Invoice,
    k: u32,
    out: &mut K,
) -> Result<(), AttachFault>
    ensures { spec.Attaches result (spec.attached i.now k) (K.view out.old) (K.view out.new) }
{
    let text = match document(i.entries(), k) {
        Some(text) => text,
        None => return Err(AttachFault::NoSuch),
    };
    let bytes = match bytes_of(alloc, text.as_str()) {
        Ok(bytes) => bytes,
        Err(AttachFault::Memory) => return Err(AttachFault::Memory),
        Err(_) => return Err(AttachFault::NotBase64),
    };
    match write_all(out, bytes.as_slice()) {
        Ok(()) => Ok(()),
        Err(_) => Err(AttachFault::WriteFault),
    }
}
