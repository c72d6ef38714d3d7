ghost use Rattle.std.specs.Prelude.{◌+◌, ◌≤◌, [], ◌∷◌, ◌++◌, length, chars, encode_utf8_all};
ghost use Rattle.arrayvec.specs.ArrayVec.{array_vec_len};
ghost use Rattle.inv_base.specs.Printing.{Prints};
ghost use Rattle.inv_base.specs.Text.{quoted};
ghost use Rattle.short_lines.specs.Composing.{Composes, IsPlain};

use crate::plain::is_plain;
use crate::short::{Short, put};
use inv_base::{Printer, Sink};

/// Prints a text between quotes and the end of its line, in one piece where it is short and stands for itself.
pub fn print_quoted_line<K: Sink>(text: &str, printer: &mut Printer, out: &mut K)
    ensures { Prints (encode_utf8_all (quoted (chars text.now)) ++ 0xA ∷ []) printer.old.failed printer.new.failed (K.view out.old) (K.view out.new) }
{
    if is_plain(text) {
        let mut line = Short::new();
        put_quoted_line(&mut line, text);
        printer.put(out, line.as_slice());
        return;
    }
    printer.put_quoted(out, text);
    printer.put(out, b"\n");
}

/// Puts a text that stands for itself between quotes, and the end of its line, behind a short text.
pub fn put_quoted_line(line: &mut Short, text: &str)
    requires plain { IsPlain text.now }
    requires room { array_vec_len line.old + length text.now + 3 ≤ 128 }
    ensures { Composes (encode_utf8_all (quoted (chars text.now)) ++ 0xA ∷ []) (length text.now + 3) line.old line.new }
{
    put(line, b"\"");
    put(line, text.as_bytes());
    put(line, b"\"\n");
}
