ghost use Rattle.std.specs.Prelude.{◌≡◌, chars, map, option_map};
ghost use Rattle.page_tables.specs.Tables.{text_lent, word_lent};
ghost use Rattle.page_values.specs.Values as spec;

use inv_base::is_same_text;
use page_tables::{CATEGORIES, KINDS, MEANS, Meanings, OTHER_KIND, POINTS, SAVED_TYPES, UNITS};

/// The words beside a code in a table.
fn word_in(table: &[(&'static str, &'static str)], code: &str) -> Option<&'static str>
    ensures { option_map (λ word. word.now) result ≡ spec.word_in (map word_lent table.now) (chars code.now) }
{
    'rows: for row in table {
        if is_same_text(row.0, code) {
            return Some(row.1);
        }
    }
    None
}

/// What a code means, where the table of its codes has it.
pub(crate) fn meaning_of(meanings: Meanings, code: &str) -> Option<&'static str>
    ensures { option_map (λ word. word.now) result ≡ spec.meaning_of meanings (chars code.now) }
{
    match meanings {
        Meanings::None => None,
        Meanings::Category => word_in(&CATEGORIES, code),
        Meanings::Means => word_in(&MEANS, code),
        Meanings::Unit => word_in(&UNITS, code),
        Meanings::Point => word_in(&POINTS, code),
    }
}

/// What kind of document a type is.
pub fn kind_word(code: &str) -> &'static str
    ensures { result.now ≡ spec.kind_word (chars code.now) }
{
    match word_in(&KINDS, code) {
        Some(word) => word,
        None => OTHER_KIND,
    }
}

/// Whether a document of the media type can be saved from the page.
pub(crate) fn is_saved(media_type: &str) -> bool
    ensures { result ≡ spec.is_saved (chars media_type.now) }
{
    is_among(&SAVED_TYPES, media_type)
}

fn is_among(texts: &[&'static str], text: &str) -> bool
    ensures { result ≡ spec.is_among (map text_lent texts.now) (chars text.now) }
{
    'texts: for other in texts {
        if is_same_text(*other, text) {
            return true;
        }
    }
    false
}
