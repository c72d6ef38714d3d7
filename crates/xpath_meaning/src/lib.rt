//! What an expression means (XPath 2.0, in a subset): definitions in `specs/`, and their laws. Each call does nothing:
//! what it ensures is the law.
#![tactic(auto)]

ghost use Rattle.std.specs.Prelude.{◌≡◌, ℕ, true, false, List, length};
ghost use Rattle.inv_base.specs.Tree.{Node};
ghost use Rattle.xpath_items.specs.declared.item.Item.{Item};
ghost use Rattle.xpath_grammar.specs.Grammar.{Tree, Grammatical};
ghost use Rattle.xpath_types.specs.Judging.{Environment, judged};
ghost use Rattle.xpath_types.specs.Parts.{Placed, facts};
ghost use Rattle.xpath_meaning.specs.Expressions.{Exp};
ghost use Rattle.xpath_meaning.specs.Resolving.{resolved};
ghost use Rattle.xpath_meaning.specs.Meaning.{Context, at, mean};
ghost use Rattle.xpath_meaning.specs.ItemKinds.{IsValueOf, Expected, Suits, kinds_of};
ghost use Rattle.xpath_meaning.specs.PartKinds.{Bound, names, AreInScope, expected};
ghost use Rattle.xpath_meaning.specs.Uses.{uses_of, reads_outside, AreSameFor, IsAtNode};

/// Each item of an expression's value is of one of the kinds that the expression may have where it is evaluated.
pub fn values_have_their_kinds()
    ensures { (nodes : List Node) (e : Exp) (expected : Expected) (c : Context) → Suits expected c → IsValueOf (kinds_of e expected) (mean nodes e c) }
{}

/// Each item of a part's value is of one of the kinds that the part is judged to have before it is evaluated: at a
/// focus of the kind that it is judged at, with bound variables of their kinds.
pub fn parts_have_their_kinds()
    ensures { (nodes : List Node) (env : Environment) (bound : Bound) (c : Context) (token : ℕ) (x : Tree) → Grammatical x → AreInScope bound env
        → Suits (expected env bound) c → IsValueOf (judged env token x).kinds (mean nodes (resolved env.declared (names bound) x) c) }
{}

/// An expression that reads no variable bound among the first so many and none that is declared outside has one value
/// in all contexts that are the same in what it uses of its focus.
pub fn unused_contexts_change_nothing()
    ensures { (nodes : List Node) (depth : ℕ) (e : Exp) (c d : Context) → reads_outside depth e ≡ false → AreSameFor (uses_of e) depth c d
        → mean nodes e c ≡ mean nodes e d }
{}

/// A part that is judged to depend on the document alone has one value at all nodes, whatever variables stand around
/// it.
pub fn parts_depend_on_the_document_alone()
    ensures { (nodes : List Node) (at : Placed) (names : List (List ℕ)) (c d : Context) → Grammatical at.part → (facts at).depends_on_document_alone ≡ true
        → IsAtNode (length names) c → IsAtNode (length names) d
        → mean nodes (resolved at.environment.declared names at.part) c ≡ mean nodes (resolved at.environment.declared names at.part) d }
{}

/// A part that is judged to use no position has one value at an item, whatever its position and the last one.
pub fn positions_change_nothing()
    ensures { (nodes : List Node) (part : Placed) (names : List (List ℕ)) (c : Context) (item : Item) (position last position' last' : ℕ)
        → Grammatical part.part → (facts part).uses_position ≡ false
        → mean nodes (resolved part.environment.declared names part.part) (at c item position last)
        ≡ mean nodes (resolved part.environment.declared names part.part) (at c item position' last') }
{}
