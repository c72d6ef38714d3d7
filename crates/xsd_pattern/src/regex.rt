ghost use Rattle.std.specs.Prelude.{◌≡◌, ◌≤◌, ◌<◌, ◌↔◌, ◌⊎◌, List, ℕ, IfOk, IsOk, IsTrue, Err};
ghost use Rattle.std.specs.Str.{chars};
ghost use Rattle.xsd_pattern.specs.Classes.{has};
ghost use Rattle.xsd_pattern.specs.Grammar.{Top};
ghost use Rattle.xsd_pattern.specs.Spelling.{Spells};
ghost use Rattle.xsd_pattern.specs.Finding.{Finds};
ghost use Rattle.xsd_pattern.specs.Matching.{Judges, fault_of, matches, most_marks, size};
ghost use Rattle.xsd_pattern.specs.declared.token.Class.{Class};

use crate::compiling::{Compiled, compile};
use crate::fault::PatternFault;
use crate::going::is_among;
use inv_base::Txt;
use std::alloc::{AllocError, Global};
use std::marker::Model;

/// A pattern that is ready to be looked for. Contracts see the characters that it is spelled with.
pub struct Regex {
    pattern: Txt,
    compiled: Compiled,
}

impl Drop for Regex {
    fn drop(self) {
        let Regex { pattern, compiled } = self;
        drop(pattern);
        drop(compiled);
    }
}

impl Model for Regex {
    ghost use Rattle.std.specs.Prelude.{List, ℕ};

    ghost Value = { List ℕ };

    ghost view = { λ regex. regex.pattern };

    ghost use Rattle.xsd_pattern.specs.Compiling.{IsCompiled};

    ghost invariant = { λ regex. IsCompiled regex.pattern regex.compiled.tokens regex.compiled.steps regex.compiled.empty };
}

/// The pattern that the text spells. `Bad` where it spells none, `TooLarge` where the one that it spells has more than 2,000
/// characters with each repeat written out. Takes time in proportion to the text.
pub fn parse(alloc: Global, text: &str) -> Result<Regex, PatternFault>
    ensures pattern { IfOk result (λ regex. regex ≡ chars text.now) }
    ensures found { IfOk result (λ _. (p : Top Class) × Spells (chars text.now) p × (size p ≤ most_marks)) }
    ensures bad { result ≡ Err PatternFault.Bad → (p : Top Class) → Spells (chars text.now) p → ⊥ }
    ensures large { result ≡ Err PatternFault.TooLarge → (p : Top Class) × Spells (chars text.now) p × (most_marks < size p) }
    ensures only { (p : Top Class) → Spells (chars text.now) p →
        (result ≡ Err PatternFault.Memory) ⊎ (((size p ≤ most_marks) × IsOk result) ⊎ ((most_marks < size p) × (result ≡ Err PatternFault.TooLarge))) }
    ensures fault { Judges result (fault_of (chars text.now)) }
{
    let pattern = Txt::of(alloc, text)?;
    match compile(alloc, text) {
        Ok(compiled) => Ok(Regex { pattern, compiled }),
        Err(fault) => {
            drop(pattern);
            Err(fault)
        }
    }
}

/// Whether the pattern is found in the text, and over the whole of it where it says so by `^` and `$`. Goes over the pattern
/// once for each character of the text, whatever the pattern is.
pub fn holds(alloc: Global, regex: &Regex, text: &str) -> Result<bool, AllocError>
    ensures finds { (p : Top Class) → Spells regex.now p → IfOk result (λ found. IsTrue found ↔ Finds has p (chars text.now)) }
    ensures value { IfOk result (λ found. found ≡ matches (chars text.now) regex.now) }
{
    let compiled = &regex.compiled;
    is_among(
        alloc,
        compiled.tokens.as_slice(),
        compiled.steps.as_slice(),
        compiled.empty,
        text,
    )
}
