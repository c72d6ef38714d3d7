//! JSON text says the data that it was written for: the grammar by which the library's reader reads a text gives them back.
#![tactic(auto)]

ghost use Rattle.std.specs.Prelude.{◌≡◌, ◌≤◌, true, false, Some, encode_utf8_all};
ghost use Rattle.json.specs.Json.{max_depth};
ghost use Rattle.json.specs.Json as json;
ghost use Rattle.json_text.specs.Json.{Json, are_named, nesting};
ghost use Rattle.json_text.specs.Layout.{document};
ghost use Rattle.json_laws.specs.Reading.{value_of, is_one, numbers_fit};

/// A law, and no code: the text of a value reads back as the value, where exactly the members of objects are named, each number has
/// 64 bits, and arrays and objects are no deeper inside one another than the reader goes.
pub fn json_text_reads_back()
    ensures { (value : Json) → is_one value ≡ true → are_named false value ≡ true → numbers_fit value ≡ true → nesting value ≤ max_depth
        → json.document (encode_utf8_all (document value)) ≡ Some (value_of value) }
{}
