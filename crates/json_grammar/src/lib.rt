//! The grammar of JSON text (RFC 8259), by what a text is made of, and that exactly its texts are read, as its items.
#![tactic(auto)]

ghost use Rattle.std.specs.Prelude.{◌≡◌, ◌≤◌, ℕ, List, Ok, length};
ghost use Rattle.json_reading.specs.declared.item.Item.{Item};
ghost use Rattle.json_reading.specs.Reading.{reading};
ghost use Rattle.json_grammar.specs.Items.{Derives};

/// A law, and no code. A text of the grammar that is within the limits is read, and its items are those of what it is made of. What is
/// read is within the limits and a text of the grammar with these items.
pub fn texts_of_the_grammar_are_read()
    ensures read { (longest deepest : ℕ) (bytes : List ℕ) (items : List Item) → length bytes ≤ longest → Derives deepest bytes items
        → reading longest deepest bytes ≡ Ok items }
    ensures derived { (longest deepest : ℕ) (bytes : List ℕ) (items : List Item) → reading longest deepest bytes ≡ Ok items
        → (length bytes ≤ longest) × Derives deepest bytes items }
{}
