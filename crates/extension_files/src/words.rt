//! The words of a file for the places and the types of terms.
ghost use Rattle.std.specs.Prelude.{◌≡◌};
ghost use Rattle.extension_files.specs.Words as spec;

use crate::terms::ExtPlace;
use term_table::DataType;

const PLACES: [ExtPlace; 2] = [ExtPlace::Root, ExtPlace::Line];

// The types of extension terms: all but that of attachments.
const LETTERS: [DataType; 7] = [
    DataType::T,
    DataType::I,
    DataType::C,
    DataType::A,
    DataType::Q,
    DataType::P,
    DataType::D,
];

fn word_of_place(place: ExtPlace) -> &'static str
    ensures { result.now ≡ spec.word_of_place place }
{
    match place {
        ExtPlace::Root => "root",
        ExtPlace::Line => "line",
    }
}

/// The place for which the word stands, if there is one.
pub(crate) fn place_named(word: &str) -> Option<ExtPlace>
    ensures { result ≡ spec.place_named word.now }
{
    PLACES
        .iter()
        .copied()
        .find(|place| word_of_place(*place) == word)
}

fn word_of_letter(data_type: DataType) -> &'static str
    ensures { result.now ≡ spec.word_of_letter data_type }
{
    match data_type {
        DataType::T => "T",
        DataType::I => "I",
        DataType::C => "C",
        DataType::A => "A",
        DataType::Q => "Q",
        DataType::P => "P",
        DataType::D => "D",
        DataType::B => "B",
    }
}

/// The type for which the word stands, if it is one that an extension term may have.
pub(crate) fn data_type_named(word: &str) -> Option<DataType>
    ensures { result ≡ spec.data_type_named word.now }
{
    LETTERS
        .iter()
        .copied()
        .find(|data_type| word_of_letter(*data_type) == word)
}
