//! The words of indicators.
ghost use Rattle.std.specs.Prelude.{◌≡◌, [], ◌∷◌, codes, chars};
ghost use Rattle.inv_terms.specs.Values.{trimmed};
ghost use Rattle.bind_meaning.specs.Elements.{is_one_of};
ghost use Rattle.bind_meaning.specs.Judging.{words};

use inv_base::is_same_text;
use inv_terms::trimmed;

/// Whether the text, without the white space around it, is `true`, `false`, `1` or `0`.
pub fn is_word(text: &str) -> bool
    ensures { result ≡ is_one_of words (trimmed (chars text.now)) }
{
    let word = trimmed(text);
    if is_same_text(word, "true") {
        return true;
    }
    if is_same_text(word, "false") {
        return true;
    }
    is_number(word)
}

fn is_number(word: &str) -> bool
    ensures { result ≡ is_one_of (codes "1" ∷ codes "0" ∷ []) (chars word.now) }
{
    if is_same_text(word, "1") {
        return true;
    }
    is_same_text(word, "0")
}
