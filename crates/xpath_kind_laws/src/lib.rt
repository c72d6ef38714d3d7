//! Laws of kinds: what the typing of an expression states of its parts holds where the parts are evaluated. Each call
//! does nothing: what it ensures is the law.
#![tactic(auto)]

ghost use Rattle.std.specs.Prelude.{◌≡◌, ℕ, List, [], Option};
ghost use Rattle.std.specs.List.{All};
ghost use Rattle.inv_base.specs.Tree.{Node};
ghost use Rattle.xpath_grammar.specs.Grammar.{Tree, Grammatical};
ghost use Rattle.xpath_types.specs.Scopes.{Declared};
ghost use Rattle.xpath_types.specs.Judging.{Environment};
ghost use Rattle.xpath_types.specs.Parts.{Placed, placed};
ghost use Rattle.xpath_types.specs.Typing.{outermost};
ghost use Rattle.xpath_meaning.specs.Values.{Value};
ghost use Rattle.xpath_meaning.specs.Resolving.{resolved};
ghost use Rattle.xpath_meaning.specs.Meaning.{Context, mean, at_top};
ghost use Rattle.xpath_meaning.specs.ItemKinds.{Suits};
ghost use Rattle.xpath_meaning.specs.PartKinds.{Bound, names, AreInScope, expected};
ghost use Rattle.xpath_kind_laws.specs.Arising.{arising};
ghost use Rattle.xpath_kind_laws.specs.KindsHold.{IsInScope, KindsHold};
ghost use Rattle.xpath_kind_laws.specs.Replacing.{replaced, IsSameThere};

use xpath_meaning::parts_have_their_kinds;

/// Each part of an expression is one of the grammar, is judged in a scope of its own, and has its kinds in each context
/// that suits it.
pub fn placed_parts_are_in_scope()
    ensures { (nodes : List Node) (env : Environment) (bound : Bound) (token : ℕ) (x : Tree) → Grammatical x
        → AreInScope bound env → All (IsInScope nodes) (placed env token x) }
{
    parts_have_their_kinds();
}

/// While an expression is evaluated in a context that suits it, each of its parts is evaluated in contexts that suit what
/// the part is judged in, so each item of its value there is of the kinds that are stated of it.
pub fn kinds_hold_where_parts_are_evaluated()
    ensures { (nodes : List Node) (env : Environment) (bound : Bound) (token : ℕ) (x : Tree) (c : Context) → Grammatical x
        → AreInScope bound env → Suits (expected env bound) c
        → All (KindsHold nodes (placed env token x)) (arising nodes env bound token x c) }
{
    parts_have_their_kinds();
}

/// The same of a whole expression at a node, whatever the values of the variables that are declared outside.
pub fn kinds_hold_at_each_node()
    ensures { (nodes : List Node) (declared : Declared) (x : Tree) (n : ℕ) (outer : List (List ℕ × Value)) → Grammatical x
        → All (KindsHold nodes (placed (outermost declared) 0 x)) (arising nodes (outermost declared) [] 0 x (at_top n outer)) }
{
    kinds_hold_where_parts_are_evaluated();
}

/// Nothing else is evaluated: where other parts stand in place of some, and come to the same in each context in which
/// these are evaluated, the whole has the same value.
pub fn nothing_else_is_evaluated()
    ensures { (nodes : List Node) (env : Environment) (bound : Bound) (token : ℕ) (x : Tree) (c : Context)
        (others : Placed → Option Tree) → Grammatical x → All (IsSameThere nodes others) (arising nodes env bound token x c)
        → mean nodes (resolved env.declared (names bound) x) c
        ≡ mean nodes (resolved env.declared (names bound) (replaced others env token x)) c }
{}
