//! Words of expressions, which stand for values.

ghost use Rattle.std.specs.Prelude.{◌≡◌, ℕ, List};
ghost use Rattle.std.specs.Str.{chars};
ghost use Rattle.xpath_grammar.specs.Grammar.{named_in};

use inv_base::is_same_text;

/// What an expression names by a word.
pub trait Worded: Copy {
    ghost spelling: { Self → List ℕ };

    /// The word, which is ASCII.
    fn word(self) -> &'static str
        ensures { result.now ≡ spelling self };

    ghost is_ascii: { (value : Self) → chars (spelling value) ≡ spelling value };
}

/// The first of the values that the text is the word of.
pub fn named<T: Worded>(values: &[T], text: &str) -> Option<T>
    ensures { result ≡ named_in T.spelling values.now (chars text.now) }
{
    'values: for value in values {
        if is_same_text((*value).word(), text) {
            return Some(*value);
        }
    }
    None
}
