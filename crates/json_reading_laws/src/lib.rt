//! The first fault of a JSON text is the first: the bytes before it can begin a text that is read, and with the next one they can't.
#![tactic(auto)]

ghost use Rattle.std.specs.Prelude.{◌≡◌, ◌≤◌, ℕ, List, Err, length};
ghost use Rattle.json_reading.specs.declared.fault.JsonKind.TheVariants.{NotJson, NotUtf8, TooDeep, Truncated};
ghost use Rattle.json_reading.specs.Reading.{fault, reading_whole};
ghost use Rattle.json_reading_laws.specs.Beginnings.{CanBegin, IsFirstRefused};

/// A law, and no code, of texts that aren't too long. A byte that isn't JSON, or a bracket that is too deep, is the first that is
/// refused. Where bytes are no character, the first that is refused stands in the character or is its first. A text that is cut off is
/// told at its end, and could go on.
pub fn faults_are_the_first()
    ensures not_json { (deepest at : ℕ) (bytes : List ℕ) → reading_whole deepest bytes ≡ Err (fault NotJson at) → IsFirstRefused deepest bytes at }
    ensures too_deep { (deepest at : ℕ) (bytes : List ℕ) → reading_whole deepest bytes ≡ Err (fault TooDeep at) → IsFirstRefused deepest bytes at }
    ensures not_utf8 { (deepest at : ℕ) (bytes : List ℕ) → reading_whole deepest bytes ≡ Err (fault NotUtf8 at)
        → (count : ℕ) × (at ≤ count) × IsFirstRefused deepest bytes count }
    ensures truncated { (deepest at : ℕ) (bytes : List ℕ) → reading_whole deepest bytes ≡ Err (fault Truncated at)
        → (at ≡ length bytes) × CanBegin deepest bytes }
{}
