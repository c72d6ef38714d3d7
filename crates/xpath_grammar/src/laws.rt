//! Laws of the grammar. Each call does nothing: what it ensures is the law.

ghost use Rattle.std.specs.Prelude.{◌≡◌, ◌<◌, ◌≤◌, ◌↔◌, List, Option, Some, None, All, option_map, IsTrue, true};
ghost use Rattle.xpath_tokens.specs.declared.token.Token.{Token};
ghost use Rattle.xpath_grammar.specs.Grammar.{Form, Tree, Parts, Spells, Grammatical, written, level, node};
ghost use Rattle.xpath_grammar.specs.Machine.{Algebra, tree_of, parsed, value_of};
ghost use Rattle.xpath_grammar.specs.Productions.{Is, expr};
ghost use Rattle.xpath_grammar.specs.Patterns.{IsPattern, is_pattern};
ghost use Rattle.xpath_grammar.specs.Places.{StandsAt, parts_from, inner_parts};
ghost use Rattle.xpath_grammar.specs.View.{view, expressions};

/// Tokens spell at most one expression, and at most one pattern.
pub fn one_reading()
    ensures expression { (tokens : List Token) (x y : Tree) → Spells tokens x → Spells tokens y → x ≡ y }
    ensures pattern { (tokens : List Token) (x y : Tree) → IsPattern tokens x → IsPattern tokens y → x ≡ y }
{}

/// The productions derive from tokens the expressions that these spell, and no others.
pub fn productions_spell()
    ensures { (tokens : List Token) (x : Tree) → (Is expr tokens x ↔ Spells tokens x) }
{}

/// The patterns among the expressions are those that the productions of patterns derive.
pub fn patterns_are_expressions()
    ensures { (tokens : List Token) (x : Tree)
        → (IsPattern tokens x ↔ Spells tokens x × (is_pattern x ≡ true)) }
{}

/// The machine finds the expression that the tokens spell, and nothing where they spell none.
pub fn machine_reads()
    ensures found { (tokens : List Token) (x : Tree) → ((tree_of tokens ≡ Some x) ↔ Spells tokens x) }
    ensures nothing { (tokens : List Token)
        → ((tree_of tokens ≡ None) ↔ ((x : Tree) → Spells tokens x → ⊥)) }
{}

/// Over any algebra of values the machine finds what the algebra makes of that expression.
pub fn machine_computes<V, L>()
    ensures { (A : Algebra V L) (tokens : List Token)
        → parsed A tokens ≡ option_map (value_of A) (tree_of tokens) }
{}

/// An expression that is written and read again is the same.
pub fn written_is_read()
    ensures { (x : Tree) → Grammatical x → tree_of (written x) ≡ Some x }
{}

/// Each part of an expression stands among its tokens, from its place on.
pub fn parts_stand()
    ensures { (x : Tree) → All (StandsAt (written x)) (parts_from 0 x) }
{}

/// The parts of an expression have fewer levels than the expression.
pub fn parts_have_fewer_levels()
    ensures { (form : Form) (parts : Parts)
        → All (λ part. level part.1 < level (node form parts)) (inner_parts 0 parts) }
{}

/// Each tree is that of an expression: the one that the machine makes over expressions.
pub fn trees_are_expressions()
    ensures { (x : Tree) → view (value_of expressions x) ≡ x }
{}
