//! The variables that are declared outside an expression, with their values.
ghost use Rattle.std.specs.Prelude.{◌≡◌, ℕ, ◌++◌, ◌∷◌, [], length, take, chars, IfOk, OnOk, OnErr};
ghost use Rattle.xpath_items.specs.Faults.{Gives};
ghost use Rattle.xpath_meaning.specs.Meaning as meaning;
ghost use Rattle.xpath_meaning.specs.Values as values;
ghost use Rattle.xpath_operators.specs.Nodes.{AreWithin};
ghost use Rattle.xpath_steps.specs.Lending.{lent_value};
ghost use Rattle.xpath_steps.specs.Variables as spec;

use crate::lending::{Lent, copy_of, lend, no_items};
use inv_base::{Txt, is_same_text};
use std::alloc::{AllocError, Global};
use std::marker::Model;
use xpath_items::{Fault, Outcome, Seq};

/// A variable and its value.
struct Variable<'a> {
    name: Txt,
    outcome: Outcome<'a>,
}

impl Drop for Variable<'_> {
    fn drop(self) {
        let Variable { name, outcome } = self;
        drop(name);
        drop(outcome);
    }
}

/// Variables with their values, of which the last of a name counts. Contracts see the list of them.
pub struct Env<'a> {
    alloc: Global,
    variables: Vec<Variable<'a>>,
}

impl Drop for Env<'_> {
    fn drop(self) {
        let Env {
            alloc: _,
            variables,
        } = self;
        drop(variables);
    }
}

impl<'a> Model for Env<'a> {
    ghost use Rattle.std.specs.Prelude.{List, ℕ};
    ghost use Rattle.xpath_meaning.specs.Values.{Value as Answer};
    ghost use Rattle.xpath_steps.specs.Variables.{variables_of};

    ghost Value = { List (List ℕ × Answer) };

    ghost view = { λ env. variables_of env.variables.items };
}

impl<'a> Env<'a> {
    /// No variables.
    pub fn new(alloc: Global) -> Env<'a>
        ensures { result ≡ [] }
    {
        Env {
            alloc,
            variables: Vec::new(alloc),
        }
    }

    /// Declares a variable behind the others. Without memory for it nothing changes.
    pub fn push(&mut self, name: &str, outcome: Outcome<'a>) -> Result<(), AllocError>
        ensures ok { OnOk result (self.new ≡ self.old ++ (chars name.now, values.value outcome.entry) ∷ []) }
        ensures err { OnErr result (self.new ≡ self.old) }
    {
        let name = Txt::of(self.alloc, name)?;
        self.variables.push(Variable { name, outcome })?;
        Ok(())
    }

    /// Takes back all variables but the first n.
    pub fn truncate(&mut self, n: usize)
        ensures { self.new ≡ take n self.old }
    {
        self.variables.truncate(n);
    }

    /// How many variables there are.
    pub fn len(&self) -> usize
        ensures { result ≡ length self.now }
    {
        self.variables.len()
    }

    /// The value of the last variable of the name, or its error, lent where it lies; where there is none, empty. It is searched
    /// from the last one on, by one comparison of names each.
    pub fn lent(&self, name: &str) -> Lent<'_, 'a>
        ensures value { lent_value result ≡ meaning.outer_value (chars name.now) self.now }
        ensures within { (count : ℕ) → spec.ValuesWithin count self.now → spec.ValueWithin count (lent_value result) }
    {
        last_lent(&self.variables, name)
    }

    /// The value of the last variable of the name, or its error; where there is none, empty. It is searched from the last one
    /// on, by one comparison of names each.
    pub fn value_of(&self, alloc: Global, name: &str) -> Result<Seq<'a>, Fault>
        ensures value { Gives result (meaning.outer_value (chars name.now) self.now) }
        ensures within { (count : ℕ) → spec.ValuesWithin count self.now → IfOk result (λ items. AreWithin count items) }
    {
        copy_of(alloc, self.lent(name))
    }
}

/// The value of the last variable of the name, lent.
fn last_lent<'r, 'a>(variables: &'r [Variable<'a>], name: &str) -> Lent<'r, 'a>
    ensures { lent_value result ≡ meaning.outer_value (chars name.now) (spec.variables_of variables.now) }
{
    let mut left = variables.len();
    'variables: while left > 0 {
        left -= 1;
        let variable = &variables[left];
        if is_same_text(name, variable.name.as_str()) {
            return lend(&variable.outcome);
        }
    }
    Lent::Items(no_items())
}
