//! The words of a constant.

ghost use Rattle.std.specs.Prelude.{◌≡◌, chars};
ghost use Rattle.inv_terms.specs.Values.{trimmed};
ghost use Rattle.bind_meaning.specs.Elements.{is_one_of};
ghost use Rattle.bind_meaning.specs.Said as spec;

use inv_base::is_same_text;
use inv_terms::trimmed;

/// Whether the string, without the white space around it, is one of the constant's words: the constant itself, or what stands for it
/// in other documents.
pub(crate) fn is_word(string: &str, text: &str) -> bool
    ensures { result ≡ is_one_of (spec.words (chars text.now)) (trimmed (chars string.now)) }
{
    let word = trimmed(string);
    if is_same_text(word, text) {
        return true;
    }
    is_other_word(word, text)
}

fn is_other_word(word: &str, text: &str) -> bool
    ensures { result ≡ is_one_of (spec.other_words (chars text.now)) (chars word.now) }
{
    if is_same_text(text, "false") {
        return is_same_text(word, "0");
    }
    if is_same_text(text, "true") {
        return is_same_text(word, "1");
    }
    if is_same_text(text, "TAX") {
        return is_same_text(word, "FC");
    }
    false
}
