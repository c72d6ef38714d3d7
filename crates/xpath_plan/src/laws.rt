//! Laws of plans. Each call does nothing: what it ensures is the law.

ghost use Rattle.std.specs.Prelude.{◌≡◌, ℕ, Ok, map};
ghost use Rattle.xpath_grammar.specs.Grammar.{Tree, Grammatical};
ghost use Rattle.xpath_types.specs.Judging.{Environment};
ghost use Rattle.xpath_types.specs.Parts.{placed};
ghost use Rattle.xpath_types.specs.Scopes.{Declared};
ghost use Rattle.xpath_types.specs.Typing.{Typing, typing_of};
ghost use Rattle.xpath_plan.specs.Shapes.{Place, shapes, is_kept, onces};

/// The parts that are kept are those that depend on the document alone and are no literals.
pub fn kept_parts_depend_on_the_document_alone()
    ensures { (env : Environment) (token : ℕ) (place : Place) (x : Tree) → onces (shapes env token place x) ≡ map is_kept (placed env token x) }
{}

/// What is typed of a grammatical expression is grammatical, so it may be compiled.
pub fn typed_expressions_are_grammatical()
    ensures { (declared : Declared) (x : Tree) (typing : Typing) → typing_of declared x ≡ Ok typing → Grammatical x → Grammatical typing.expression }
{}
