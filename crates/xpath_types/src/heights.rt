//! The names of the variables that are bound around a part, each found at once however many there are.
ghost use Rattle.std.specs.Prelude.{◌≡◌, ◌<◌, ◌-◌, [], ◌∷◌, chars, string_bytes, IfSome, OnOk, OnErr, length, drop};
ghost use Rattle.xpath_types.specs.Heights as spec;

use indexmap::IndexMap;
use std::alloc::{AllocError, Global};
use std::marker::Model;

/// A variable, under its name as it is written.
#[derive(Drop)]
pub(crate) struct Bound {
    pub name: String,
    /// How high the variable of this name stands that is the innermost outside.
    pub hidden: Option<usize>,
}

/// Names of bound variables. Contracts see the names, the innermost first.
pub struct Heights {
    /// The innermost last.
    stack: Vec<Bound>,
    /// How high each name stands. The name of a variable that was let go stays.
    heights: IndexMap<String, Option<usize>>,
}

impl Drop for Heights {
    fn drop(self) {
        let Heights { stack, heights } = self;
        drop(stack);
        drop(heights);
    }
}

impl Model for Heights {
    ghost use Rattle.std.specs.Prelude.{ℕ, List, []};

    ghost Value = { List (List ℕ) };

    ghost use Rattle.xpath_types.specs.Heights.{stacked, AreFound};

    ghost view = { λ bound. stacked [] bound.stack.items };

    ghost invariant = { λ bound. AreFound bound.heights.entries bound.stack.items };
}

impl Heights {
    /// No variables.
    pub fn new(alloc: Global) -> Heights
        ensures { result ≡ [] }
    {
        Heights {
            stack: Vec::new(alloc),
            heights: IndexMap::new(alloc),
        }
    }

    /// How many variables are bound.
    pub fn len(&self) -> usize
        ensures { result ≡ length self.now }
    {
        self.stack.len()
    }

    /// How many variables stand around the innermost one of the name.
    pub fn height(&self, name: &str) -> Option<usize>
        ensures exact { result ≡ spec.height_in (chars name.now) self.now }
        ensures within { IfSome result (λ height. height < length self.now) }
    {
        match self.heights.get(name) {
            Some(height) => *height,
            None => None,
        }
    }

    /// Binds a variable of the name, inside the others. Want of memory changes nothing.
    pub fn push(&mut self, name: String) -> Result<(), AllocError>
        ensures ok { OnOk result (self.new ≡ chars (string_bytes name) ∷ self.old) }
        ensures err { OnErr result (self.new ≡ self.old) }
    {
        let hidden = self.height(name.as_str());
        let key = name.clone()?;
        let height = self.stack.len();
        self.stack.push(Bound { name, hidden })?;
        let Ok(_) = self.heights.insert(key, Some(height)) else {
            let _ = self.stack.pop();
            return Err(AllocError);
        };
        Ok(())
    }

    /// Lets the innermost variable go.
    fn pop(&mut self)
        ensures { self.new ≡ drop 1 self.old }
    {
        let Some(Bound { name, hidden }) = self.stack.pop() else {
            return;
        };
        // The name has an entry, so that no memory is wanted.
        let _ = self.heights.insert(name, hidden);
    }

    /// Lets the inner variables go, down to so many.
    pub fn truncate(&mut self, height: usize)
        ensures { self.new ≡ drop (length self.old - height) self.old }
    {
        'inner: while self.len() > height {
            self.pop();
        }
    }
}
