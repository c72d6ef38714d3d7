//! Texts of the rules, lent to what is told.
ghost use Rattle.std.specs.Prelude.{◌≡◌};

use inv_base::{Str, Txt};
use schematron_findings::Lent;

/// A label of the rules, where there is one.
pub(crate) fn lent_label(label: &Option<Txt>) -> Option<Lent<'_>>
    ensures { result ≡ label.now }
{
    match label {
        None => None,
        Some(label) => Some(lent_text(label)),
    }
}

/// A text of the rules.
pub(crate) fn lent_text(text: &Txt) -> Lent<'_>
    ensures { result ≡ text.now }
{
    Lent::of(text.as_str())
}

/// The same, as an identifier.
pub(crate) fn lent_id(id: &Option<Txt>) -> Option<Str<'_>>
    ensures { result ≡ id.now }
{
    match id {
        None => None,
        Some(id) => Some(Str::lent(id.as_str())),
    }
}
