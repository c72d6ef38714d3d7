//! Laws of typing. Each call does nothing: what it ensures is the law.

ghost use Rattle.std.specs.Prelude.{◌≡◌, ℕ, List, Ok, Option, None, All, Contains, MatchOption, map, [], false};
ghost use Rattle.xpath_grammar.specs.Grammar.{Tree};
ghost use Rattle.xpath_grammar.specs.Places.{parts_from};
ghost use Rattle.xpath_types.specs.Refusals.{Refusal, is_before, first_of};
ghost use Rattle.xpath_types.specs.Judging.{Environment};
ghost use Rattle.xpath_types.specs.Parts.{placed};
ghost use Rattle.xpath_types.specs.Scopes.{Declared, with_variable};
ghost use Rattle.xpath_types.specs.Typing.{Typing, typing_of};

/// The parts that are typed are those of the expression, each at its place among the tokens, in
/// their order.
pub fn parts_are_typed()
    ensures { (env : Environment) (token : ℕ) (x : Tree) → map (λ at. (at.token, at.part)) (placed env token x) ≡ parts_from token x }
{}

/// The first of refusals is one of them, and none of them is before it.
pub fn first_refusal()
    ensures { (refusals : List Refusal) → MatchOption (first_of None refusals) (refusals ≡ [])
        (λ first. Contains refusals first × All (λ other. is_before other first ≡ false) refusals) }
{}

/// What is right in a scope is right with one variable more.
pub fn accepted_with_one_more()
    ensures { (scope : Declared) (name : List ℕ) (x : Tree) (typing : Typing) → typing_of scope x ≡ Ok typing
        → (wider : Typing) × (typing_of (with_variable scope name) x ≡ Ok wider) }
{}
