ghost use Rattle.std.specs.Prelude.{◌≡◌, ℕ, List};
ghost use Rattle.xsd_pattern.specs.Spelling.{Spells};
ghost use Rattle.xsd_pattern.specs.Grammar.{Top};
ghost use Rattle.xsd_pattern.specs.declared.token.Class.{Class};

/// A text spells at most one pattern.
pub fn one_reading()
    ensures { (text : List ℕ) (p q : Top Class) → Spells text p → Spells text q → p ≡ q }
{}
