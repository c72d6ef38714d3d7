ghost use Rattle.std.specs.Prelude.{◌≡◌, ◌≢◌, Ok, Err, Some, None, IfOk, map, chars, encode_utf8_all, length, string_bytes, []};
ghost use Rattle.inv_terms.specs.Attachments as attachments;
ghost use Rattle.page_values.specs.Places as spec;
ghost use Rattle.page_values.specs.Seen.{decoded_size, size_where_canonical};

use crate::values::base64_in;
use base64::DecodeAllocError;
use base64::engine::general_purpose::STANDARD;
use inv_base::is_white_space;
use inv_terms::{Invoice, Value};
use std::alloc::{AllocError, Global};
use term_table::{Context, Group, Slot, Term};

const ATTACHED_DOCUMENT: Term = Term {
    number: 125,
    part: 0,
};

/// Of each supporting document (BG-24) how many bytes are attached, where they are base64.
pub fn sizes_of(alloc: Global, i: &Invoice, count: u32) -> Result<Vec<Option<usize>>, AllocError>
    ensures { IfOk result (λ sizes. sizes.items ≡ map (spec.size_in i.now) (spec.numbers_to count)) }
{
    let mut sizes = Vec::new(alloc);
    match put_sizes(alloc, i, count, &mut sizes) {
        Ok(()) => Ok(sizes),
        Err(fault) => {
            drop(sizes);
            Err(fault)
        }
    }
}

fn put_sizes(
    alloc: Global,
    i: &Invoice,
    count: u32,
    sizes: &mut Vec<Option<usize>>,
) -> Result<(), AllocError>
    requires { sizes.old.items ≡ [] }
    ensures { IfOk result (λ _. sizes.new.items ≡ map (spec.size_in i.now) (spec.numbers_to count)) }
{
    'documents: for behind in 0..count {
        let size = size_in(alloc, i, behind + 1)?;
        sizes.push(size)?;
    }
    Ok(())
}

fn size_in(alloc: Global, i: &Invoice, k: u32) -> Result<Option<usize>, AllocError>
    ensures { IfOk result (λ size. size ≡ spec.size_in i.now k) }
{
    let context = Context {
        outer: Some(Slot {
            group: Group::SupportingDocument,
            index: k,
        }),
        inner: None,
    };
    match i.value(ATTACHED_DOCUMENT, context) {
        Some(value) => size_of_value(alloc, value),
        None => Ok(None),
    }
}

fn size_of_value(alloc: Global, value: &Value) -> Result<Option<usize>, AllocError>
    ensures { IfOk result (λ size. size ≡ spec.size_of_value value.now) }
{
    match base64_in(value) {
        Some(text) => size_of(alloc, text.as_str()),
        None => Ok(None),
    }
}

/// How many bytes a base64 text stands for, if it is base64: by the standard alphabet and with padding, and bits left over at its end
/// are zero.
fn size_of(alloc: Global, text: &str) -> Result<Option<usize>, AllocError>
    ensures { IfOk result (λ size. size ≡ spec.size_of (chars text.now)) }
{
    let bare = without_white_space(alloc, text)?;
    let size = decoded_size(alloc, bare.as_bytes());
    drop(bare);
    size
}

fn without_white_space(alloc: Global, text: &str) -> Result<String, AllocError>
    ensures { IfOk result (λ bare. string_bytes bare ≡ encode_utf8_all (attachments.without_white_space (chars text.now))) }
{
    let bare: String = text.chars().filter(|c| !is_white_space(*c)).collect(alloc)?;
    Ok(bare)
}

fn decoded_size(alloc: Global, text: &[u8]) -> Result<Option<usize>, AllocError>
    ensures { IfOk result (λ size. size ≡ decoded_size text.now) }
{
    match STANDARD.decode(alloc, text) {
        Ok(bytes) => {
            let size = size_where_canonical(alloc, bytes.as_slice(), text);
            drop(bytes);
            size
        }
        Err(DecodeAllocError::DecodeError(_)) => Ok(None),
        Err(DecodeAllocError::OutOfMemory) => Err(AllocError),
    }
}

/// How many bytes there are, if the text is their encoding.
fn size_where_canonical(
    alloc: Global,
    bytes: &[u8],
    text: &[u8],
) -> Result<Option<usize>, AllocError>
    ensures { IfOk result (λ size. size ≡ size_where_canonical bytes.now text.now) }
{
    match STANDARD.encode(alloc, bytes) {
        Ok(again) => {
            let is_same = again.as_bytes() == text;
            drop(again);
            if is_same {
                Ok(Some(bytes.len()))
            } else {
                Ok(None)
            }
        }
        Err(_) => Err(AllocError),
    }
}
