//! The variables that are bound around a part, with the kinds of their values.
ghost use Rattle.std.specs.Prelude.{◌≡◌, ◌-◌, [], ◌∷◌, chars, string_bytes, OnOk, OnErr, length, drop, slice_get, unwrap_or};
ghost use Rattle.xpath_types.specs.Kinds.{no_kinds};
ghost use Rattle.xpath_types.specs.Judging.{variables_behind};
ghost use Rattle.xpath_types.specs.Variables.{innermost};

use crate::heights::Heights;
use crate::kinds::{Kinds, NO_KINDS};
use crate::names::written;
use std::alloc::{AllocError, Global};
use std::marker::Model;
use xpath_grammar::expr::Label;

/// A variable that is read: how high it stands, from 1 for the outermost, and its kinds.
#[derive(Clone, Copy)]
pub(crate) struct Reading {
    pub height: usize,
    pub kinds: Kinds,
}

/// Bound variables. Contracts see their names and kinds, the innermost first.
pub(crate) struct Variables {
    names: Heights,
    /// The innermost last.
    kinds: Vec<Kinds>,
}

impl Drop for Variables {
    fn drop(self) {
        let Variables { names, kinds } = self;
        drop(names);
        drop(kinds);
    }
}

impl Model for Variables {
    ghost use Rattle.std.specs.Prelude.{ℕ, List, length, ◌≡◌};
    ghost use Rattle.xpath_types.specs.declared.kinds.Kinds.{Kinds};

    ghost Value = { List (List ℕ × Kinds) };

    ghost use Rattle.xpath_types.specs.Variables.{with_kinds};

    ghost view = { λ variables. with_kinds variables.kinds.items variables.names };

    ghost invariant = { λ variables. length variables.kinds.items ≡ length variables.names };
}

impl Variables {
    /// No variables.
    pub fn new(alloc: Global) -> Variables
        ensures { result ≡ [] }
    {
        Variables {
            names: Heights::new(alloc),
            kinds: Vec::new(alloc),
        }
    }

    /// How many are in scope.
    pub fn len(&self) -> usize
        ensures { result ≡ length self.now }
    {
        self.names.len()
    }

    /// The innermost variable of the name.
    pub fn reading(&self, name: &str) -> Option<Reading>
        ensures { result ≡ innermost (chars name.now) self.now }
    {
        match self.names.height(name) {
            None => None,
            Some(height) => {
                // No sum wraps, since there are more names than that.
                let _count = self.names.len();
                let kinds = kinds_at(self.kinds.as_slice(), height);
                Some(Reading {
                    height: height + 1,
                    kinds,
                })
            }
        }
    }

    /// Binds a variable of the name, inside the others. Want of memory changes nothing.
    pub fn push(&mut self, name: String, kinds: Kinds) -> Result<(), AllocError>
        ensures ok { OnOk result (self.new ≡ (chars (string_bytes name), kinds) ∷ self.old) }
        ensures err { OnErr result (self.new ≡ self.old) }
    {
        self.kinds.push(kinds)?;
        let Ok(()) = self.names.push(name) else {
            let _ = self.kinds.pop();
            return Err(AllocError);
        };
        Ok(())
    }

    /// Lets the inner variables go, down to so many.
    pub fn truncate(&mut self, height: usize)
        ensures { self.new ≡ drop (length self.old - height) self.old }
    {
        self.names.truncate(height);
        self.kinds.truncate(height);
    }
}

/// The kinds at the place, none past the end.
fn kinds_at(kinds: &[Kinds], place: usize) -> Kinds
    ensures { result ≡ unwrap_or (slice_get kinds.now place) no_kinds }
{
    match kinds.get(place) {
        Some(kinds) => *kinds,
        None => NO_KINDS,
    }
}

/// Binds the variable of the label, where it has one, with the kinds.
pub(crate) fn bind(
    alloc: Global,
    variables: &mut Variables,
    label: &Label,
    kinds: Kinds,
) -> Result<(), AllocError>
    ensures { OnOk result (variables.new ≡ variables_behind label.now kinds variables.old) }
{
    match label {
        Label::Binding(_, name) => variables.push(written(alloc, name)?, kinds),
        _ => Ok(()),
    }
}
