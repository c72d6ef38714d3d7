//! What json_text writes, json_reading reads as what it says: each value has its item, with its name, its places and its spelling.
#![tactic(auto)]

ghost use Rattle.std.specs.Prelude.{◌≡◌, ◌≤◌, ℕ, true, false, Ok, List, encode_utf8_all};
ghost use Rattle.json_text.specs.Json.{Json, are_named, nesting};
ghost use Rattle.json_text.specs.Layout.{document};
ghost use Rattle.json_laws.specs.Reading.{is_one, numbers_fit};
ghost use Rattle.json_reading.specs.declared.item.Item.{Item};
ghost use Rattle.json_reading.specs.Reading.{reading};
ghost use Rattle.read_back_laws.specs.Items.{are_scalars, width, items_of};
ghost use Rattle.read_back_laws.specs.Saying.{Say};

/// A law, and no code. The text of one value is read, within the limits, and its items are those that its layout has, where exactly the
/// members of objects are named, each number has 64 bits, and names and texts are made of characters; under any limits nothing else
/// is read of it. These items say the value, by what the text has at their places, and items say no other value.
pub fn written_texts_say_their_data()
    ensures items { (longest deepest : ℕ) (value : Json) → is_one value ≡ true → are_named false value ≡ true → numbers_fit value ≡ true
        → are_scalars value ≡ true → nesting value ≤ deepest → width (document value) ≤ longest
        → reading longest deepest (encode_utf8_all (document value)) ≡ Ok (items_of value) }
    ensures nothing_else { (longest deepest : ℕ) (value : Json) (items : List Item) → is_one value ≡ true → are_named false value ≡ true
        → numbers_fit value ≡ true → are_scalars value ≡ true → reading longest deepest (encode_utf8_all (document value)) ≡ Ok items
        → items ≡ items_of value }
    ensures says { (value : Json) → numbers_fit value ≡ true → are_scalars value ≡ true
        → Say (encode_utf8_all (document value)) (items_of value) value }
    ensures alone { (bytes : List ℕ) (items : List Item) (v w : Json) → numbers_fit v ≡ true → numbers_fit w ≡ true
        → Say bytes items v → Say bytes items w → v ≡ w }
{}
