//! The codes of errors of evaluation, as XPath names them.

ghost use Rattle.std.specs.Prelude.{◌≡◌};
ghost use Rattle.xpath_items.specs.Codes.{code_text};

use crate::outcome::DynError;

/// The code of an error (XPath 2.0, appendix G; Functions and Operators, appendix C).
pub fn code_of(error: DynError) -> &'static str
    ensures { result.now ≡ code_text error }
{
    match error {
        DynError::FOAR0001 => "FOAR0001",
        DynError::FOAR0002 => "FOAR0002",
        DynError::FORG0001 => "FORG0001",
        DynError::FORG0006 => "FORG0006",
        DynError::XPTY0004 => "XPTY0004",
        DynError::XPTY0018 => "XPTY0018",
        DynError::XPTY0019 => "XPTY0019",
        DynError::XPTY0020 => "XPTY0020",
    }
}
