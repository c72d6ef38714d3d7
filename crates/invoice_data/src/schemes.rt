//! Whether an object of BT-29 has a scheme.
ghost use Rattle.std.specs.Prelude.{◌≡◌, IfOk};
ghost use Rattle.invoice_data.specs.Members as spec;

use crate::input::Input;
use crate::names::name_span;
use crate::parts::split;
use crate::values::says_nothing;
use json_reading::Item;
use std::alloc::AllocError;
use term_table::Group;

/// Whether the item's name is BT-29-1.
fn is_scheme(input: &Input<'_>, item: &Item) -> Result<bool, AllocError>
    ensures { IfOk result (λ is. is ≡ spec.is_scheme_named input.now.bytes item.now) }
{
    match input.text_of(name_span(item)) {
        Ok(Some(name)) => {
            let same = name.as_bytes() == b"BT-29-1".as_slice();
            drop(name);
            Ok(same)
        }
        Ok(None) => Ok(false),
        Err(error) => Err(error),
    }
}

/// Whether an object has a BT-29-1, by its first member of that name.
fn has_scheme(input: &Input<'_>, items: &[Item]) -> Result<bool, AllocError>
    ensures { IfOk result (λ has. has ≡ spec.has_scheme input.now.bytes items.now) }
{
    let mut rest = items;
    'members: while let Some((item, behind)) = rest.split_first() {
        match is_scheme(input, item) {
            Ok(true) => {
                return match says_nothing(input, item) {
                    Ok(nothing) => Ok(!nothing),
                    Err(error) => Err(error),
                };
            }
            Ok(false) => {}
            Err(error) => return Err(error),
        }
        let (_, next) = split(item, behind);
        rest = next;
    }
    Ok(false)
}

/// Whether an object of an array of the group stands in P-29S.
pub(crate) fn is_schemed(
    input: &Input<'_>,
    group: Group,
    items: &[Item],
) -> Result<bool, AllocError>
    ensures { IfOk result (λ has. has ≡ spec.is_schemed input.now group items.now) }
{
    if group.is_same(Group::SellerSchemedIdentifier) {
        has_scheme(input, items)
    } else {
        Ok(false)
    }
}
