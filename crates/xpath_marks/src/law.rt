ghost use Rattle.std.specs.Prelude.{◌≡◌, true, List, ℕ, filter};
ghost use Rattle.inv_base.specs.Tree.{Node};
ghost use Rattle.xpath_meaning.specs.Values.{Value};
ghost use Rattle.xpath_meaning.specs.Expressions.{Exp};
ghost use Rattle.xpath_meaning.specs.Patterns.{marks};
ghost use Rattle.xpath_walks.specs.Walks.{IsWalkable, node_numbers};
ghost use Rattle.xpath_marks.specs.Shapes.{is_pattern};
ghost use Rattle.xpath_marks.specs.Found.{is_found};
ghost use Rattle.xpath_tokens.specs.declared.token.Token.{Token};
ghost use Rattle.xpath_grammar.specs.Grammar.{Tree};
ghost use Rattle.xpath_grammar.specs.Patterns.{IsPattern};
ghost use Rattle.xpath_types.specs.Scopes.{Declared};
ghost use Rattle.xpath_meaning.specs.Resolving.{resolved};

/// The nodes that a pattern matches are those that it finds, taken as a path, from some node of the document. It has no code.
pub fn marks_are_found()
    ensures { (nodes : List Node) (outer : List (List ℕ × Value)) (pattern : Exp) → IsWalkable nodes → is_pattern pattern ≡ true
        → marks nodes outer pattern ≡ node_numbers (filter (λ (node : Node). is_found nodes outer pattern node.number) nodes) }
{}

/// What the tokens of a pattern spell has the shape of one, whatever prefixes are bound. It has no code.
pub fn patterns_have_their_shape()
    ensures { (declared : Declared) (names : List (List ℕ)) (tokens : List Token) (pattern : Tree) → IsPattern tokens pattern
        → is_pattern (resolved declared names pattern) ≡ true }
{}
