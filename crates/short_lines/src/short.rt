ghost use Rattle.std.specs.Prelude.{◌+◌, ◌≤◌, length};
ghost use Rattle.arrayvec.specs.ArrayVec.{array_vec_len};
ghost use Rattle.short_lines.specs.Composing.{Composes};

use arrayvec::ArrayVec;

/// A text of at most 128 bytes, which is composed of pieces on the stack, so that it is printed as one.
pub type Short = ArrayVec<u8, 128>;

/// Puts a piece behind the others, for which there is room.
pub fn put(text: &mut Short, piece: &[u8])
    requires { array_vec_len text.old + length piece.now ≤ 128 }
    ensures { Composes piece.now (length piece.now) text.old text.new }
{
    text.try_extend_from_slice(piece).unwrap();
}
