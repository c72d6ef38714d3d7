//! Laws of the answers. Each call does nothing: what it ensures is the law.

ghost use Rattle.std.specs.Prelude.{◌≡◌, ℕ, ◌<◌, ◌≤◌, ◌↔◌, List, Ok, Err};
ghost use Rattle.xpath_tokens.specs.declared.token.Token.{Token};
ghost use Rattle.xpath_tokens.specs.declared.token.SyntaxFault.{SyntaxFault};
ghost use Rattle.xpath_tokens.specs.declared.token.SyntaxFault.TheVariants as faults;
ghost use Rattle.xpath_tokens.specs.Tokens.{tokens_of};
ghost use Rattle.xpath_grammar.specs.Grammar.{Tree, Spells, Grammatical, level};
ghost use Rattle.xpath_grammar.specs.Patterns.{IsPattern};
ghost use Rattle.xpath_syntax.specs.Answers.{answer_of, pattern_answer_of};

use xpath_grammar::laws::{machine_reads, patterns_are_expressions};

/// What a text is answered is by the grammar: where it has tokens, the expression that they spell, if it has at most 256 levels;
/// `TooDeep` exactly where they spell one that has more; `Syntax` exactly where they spell none.
pub fn answers_are_by_the_grammar()
    ensures refused { (text : List ℕ) (fault : SyntaxFault) → tokens_of text ≡ Err fault → answer_of text ≡ Err fault }
    ensures found { (text : List ℕ) (tokens : List Token) → tokens_of text ≡ Ok tokens → (x : Tree)
        → ((answer_of text ≡ Ok x) ↔ Spells tokens x × (level x ≤ 256)) }
    ensures too_deep { (text : List ℕ) (tokens : List Token) → tokens_of text ≡ Ok tokens
        → ((answer_of text ≡ Err faults.TooDeep) ↔ (x : Tree) × Spells tokens x × (256 < level x)) }
    ensures syntax { (text : List ℕ) (tokens : List Token) → tokens_of text ≡ Ok tokens
        → ((answer_of text ≡ Err faults.Syntax) ↔ ((x : Tree) → Spells tokens x → ⊥)) }
{
    machine_reads();
}

/// The same of patterns.
pub fn pattern_answers_are_by_the_grammar()
    ensures refused { (text : List ℕ) (fault : SyntaxFault) → tokens_of text ≡ Err fault → pattern_answer_of text ≡ Err fault }
    ensures found { (text : List ℕ) (tokens : List Token) → tokens_of text ≡ Ok tokens → (x : Tree)
        → ((pattern_answer_of text ≡ Ok x) ↔ IsPattern tokens x × (level x ≤ 256)) }
    ensures too_deep { (text : List ℕ) (tokens : List Token) → tokens_of text ≡ Ok tokens
        → ((pattern_answer_of text ≡ Err faults.TooDeep) ↔ (x : Tree) × IsPattern tokens x × (256 < level x)) }
    ensures syntax { (text : List ℕ) (tokens : List Token) → tokens_of text ≡ Ok tokens
        → ((pattern_answer_of text ≡ Err faults.Syntax) ↔ ((x : Tree) → IsPattern tokens x → ⊥)) }
{
    machine_reads();
    patterns_are_expressions();
}

/// What a text is answered is grammatical: each part of the expression or the pattern stands where it may.
pub fn answers_are_grammatical()
    ensures expression { (text : List ℕ) (x : Tree) → answer_of text ≡ Ok x → Grammatical x }
    ensures pattern { (text : List ℕ) (x : Tree) → pattern_answer_of text ≡ Ok x → Grammatical x }
{
    machine_reads();
    patterns_are_expressions();
}
