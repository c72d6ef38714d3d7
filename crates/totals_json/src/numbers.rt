ghost use Rattle.std.specs.Prelude.{◌≡◌, chars};
ghost use Rattle.inv_decimal.specs.WrittenNumber.{scaled_text};

use inv_base::ascii_text;
use inv_decimal::Scaled;
use inv_decimal::laws::printed_texts_are_ascii;

/// The text of a number with the digits that it was written with.
pub(crate) fn scaled_text<'a>(number: &Scaled, buf: &'a mut [u8; 40]) -> &'a str
    ensures { chars result.now ≡ scaled_text number.now }
{
    printed_texts_are_ascii();
    let len = number.print(buf);
    ascii_text(&buf[..len])
}
