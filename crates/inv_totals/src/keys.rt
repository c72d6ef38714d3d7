//! VAT categories as texts, by which their sums are found: equal categories have one text.
ghost use Rattle.std.specs.Prelude.{◌≡◌, ◌++◌, ◌∷◌, chars, string_bytes, option_map, option_copied, OnOk};
ghost use Rattle.inv_decimal.specs.Number.{IsDecimal};
ghost use Rattle.inv_decimal.specs.WrittenNumber.{decimal_text};
ghost use Rattle.inv_totals.specs.Totals.{category_at};
ghost use Rattle.inv_totals.specs.Adding as spec;

use crate::stated::{code_at, stated};
use crate::sums::CategoryTerms;
use inv_base::{Txt, ascii_text};
use inv_decimal::laws::printed_texts_are_ascii;
use inv_decimal::{Dec, Scaled};
use inv_terms::Invoice;
use std::alloc::AllocError;
use term_table::Context;

/// Puts the text of the VAT category that stands in a context in place of what was there: its rate, a space, and its
/// code behind another one. A printed rate has no space, and equal rates are printed alike.
pub(crate) fn write_key(
    i: &Invoice,
    terms: CategoryTerms,
    context: Context,
    key: &mut String,
) -> Result<(), AllocError>
    ensures { OnOk result (spec.IsKey (string_bytes key.new) (category_at i.now terms.code terms.rate context)) }
{
    key.clear();
    put_rate(stated(i, terms.rate, context), key)?;
    put(" ", key)?;
    put_code(code_at(i, terms.code, context), key)
}

fn put_rate(rate: Option<Scaled>, key: &mut String) -> Result<(), AllocError>
    ensures text { OnOk result (chars (string_bytes key.new) ≡ chars (string_bytes key.old) ++ spec.rate_text (option_map (λ s. s.value) rate)) }
    ensures in_range { spec.IsRate (option_map (λ s. s.value) rate) }
{
    match rate {
        Some(rate) => put_number(&rate.value(), key),
        None => Ok(()),
    }
}

fn put_number(number: &Dec, key: &mut String) -> Result<(), AllocError>
    ensures text { OnOk result (chars (string_bytes key.new) ≡ chars (string_bytes key.old) ++ decimal_text number.now) }
    ensures in_range { IsDecimal number.now }
{
    let mut buf = [0; 40];
    put(number_text(number, &mut buf), key)
}

fn put_code(code: Option<&Txt>, key: &mut String) -> Result<(), AllocError>
    ensures { OnOk result (chars (string_bytes key.new) ≡ chars (string_bytes key.old) ++ spec.code_text (option_copied code.entry)) }
{
    match code {
        Some(code) => {
            put(" ", key)?;
            put(code.as_str(), key)
        }
        None => Ok(()),
    }
}

/// Puts a text behind the others.
fn put(piece: &str, key: &mut String) -> Result<(), AllocError>
    ensures { OnOk result (chars (string_bytes key.new) ≡ chars (string_bytes key.old) ++ chars piece.now) }
{
    key.push_str(piece)
}

/// The text of a number in its shortest form.
pub fn number_text<'a>(number: &Dec, buf: &'a mut [u8; 40]) -> &'a str
    ensures text { chars result.now ≡ decimal_text number.now }
    ensures in_range { IsDecimal number.now }
{
    printed_texts_are_ascii();
    let len = number.print(buf);
    ascii_text(&buf[..len])
}
