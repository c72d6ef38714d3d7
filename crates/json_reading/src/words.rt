//! The words `true`, `false` and `null` (RFC 8259, section 3).
ghost use Rattle.std.specs.Prelude.{◌≡◌};
ghost use Rattle.json_reading.specs.Words as spec;

use crate::item::ItemKind;
use crate::mode::Letters;

/// The word that begins so.
pub(crate) fn word_begun(byte: u8) -> Option<Letters>
    ensures { result ≡ spec.word_begun byte }
{
    if byte == b't' {
        Some(Letters::T)
    } else if byte == b'f' {
        Some(Letters::F)
    } else if byte == b'n' {
        Some(Letters::N)
    } else {
        None
    }
}

/// The letter that has to come next.
#[tactic(auto, unfolding(crate::specs::Words::letter))]
pub(crate) fn letter(letters: Letters) -> u8
    ensures { result ≡ spec.letter letters }
{
    match letters {
        Letters::T => b'r',
        Letters::Tr => b'u',
        Letters::Tru => b'e',
        Letters::F => b'a',
        Letters::Fa => b'l',
        Letters::Fal => b's',
        Letters::Fals => b'e',
        Letters::N => b'u',
        Letters::Nu => b'l',
        Letters::Nul => b'l',
    }
}

/// What is read behind it; nothing where the word is whole.
#[tactic(auto, unfolding(crate::specs::Words::longer))]
pub(crate) fn longer(letters: Letters) -> Option<Letters>
    ensures { result ≡ spec.longer letters }
{
    match letters {
        Letters::T => Some(Letters::Tr),
        Letters::Tr => Some(Letters::Tru),
        Letters::Tru => None,
        Letters::F => Some(Letters::Fa),
        Letters::Fa => Some(Letters::Fal),
        Letters::Fal => Some(Letters::Fals),
        Letters::Fals => None,
        Letters::N => Some(Letters::Nu),
        Letters::Nu => Some(Letters::Nul),
        Letters::Nul => None,
    }
}

/// The value that the word is.
#[tactic(auto, unfolding(crate::specs::Words::word_kind))]
pub(crate) fn word_kind(letters: Letters) -> ItemKind
    ensures { result ≡ spec.word_kind letters }
{
    match letters {
        Letters::T => ItemKind::True,
        Letters::Tr => ItemKind::True,
        Letters::Tru => ItemKind::True,
        Letters::F => ItemKind::False,
        Letters::Fa => ItemKind::False,
        Letters::Fal => ItemKind::False,
        Letters::Fals => ItemKind::False,
        Letters::N => ItemKind::Null,
        Letters::Nu => ItemKind::Null,
        Letters::Nul => ItemKind::Null,
    }
}
