ghost use Rattle.std.specs.Prelude.{◌≡◌, [], ◌∷◌, MatchOption, OnOk};
ghost use Rattle.xpath_grammar.specs.declared.machine.Frame.TheVariants.{Open};
ghost use Rattle.xpath_grammar.specs.Machine as machine;
ghost use Rattle.xpath_syntax.specs.Values.{Makes};
ghost use Rattle.xpath_syntax.specs.Stacks as spec;

use crate::ranks::{is_closed, place};
use crate::value::Parts;
use std::alloc::Global;
use std::marker::Model;
use xpath_grammar::machine::Frame;
use xpath_tokens::token::SyntaxFault;

/// What is open, the last frame on top. Contracts see the frames from the top down.
pub struct Stack {
    frames: Vec<Frame<Parts>>,
}

impl Drop for Stack {
    fn drop(self) {
        let Stack { frames } = self;
        drop(frames);
    }
}

impl Model for Stack {
    ghost use Rattle.std.specs.Prelude.{List, reverse};
    ghost use Rattle.xpath_grammar.specs.declared.machine.Frame.{Frame};
    ghost use Rattle.xpath_syntax.specs.declared.value.Parts.{Parts};
    ghost use Rattle.xpath_grammar.specs.contracts.expr.Expr as expression;
    ghost use Rattle.std.specs.Coded.{codes};

    ghost Value = { List (Frame Parts) };

    ghost coded = { Prim.hlevel (codes, expression.the_row.coded) };

    ghost view = { λ stack. reverse stack.frames.items };
}

impl Stack {
    pub fn new(alloc: Global) -> Stack
        ensures { result ≡ [] }
    {
        Stack {
            frames: Vec::new(alloc),
        }
    }

    pub fn push(&mut self, frame: Frame<Parts>) -> Result<(), SyntaxFault>
        ensures { spec.Pushes result frame self.old self.new }
    {
        self.frames.push(frame)?;
        Ok(())
    }

    pub fn pop(&mut self) -> Option<Frame<Parts>>
        ensures { MatchOption result ((self.old ≡ []) × (self.new ≡ []))
            (λ frame. self.old ≡ frame ∷ self.new) }
    {
        self.frames.pop()
    }

    pub fn is_empty(&self) -> bool
        ensures { result ≡ spec.is_empty self.now }
    {
        self.frames.is_empty()
    }

    /// An expression of the rank may stand on the stack.
    pub fn has_place(&self, rank: u32) -> bool
        ensures { result ≡ machine.has_place rank self.now }
    {
        match self.frames.last() {
            None => 1 <= rank,
            Some(Frame::Open(form, _, label)) => place(form, label) <= rank,
        }
    }

    /// What is open on top ends before an operator of the rank.
    pub fn is_closed(&self, rank: u32) -> bool
        ensures { result ≡ spec.top_is_closed rank self.now }
    {
        match self.frames.last() {
            None => false,
            Some(Frame::Open(form, _, label)) => is_closed(rank, form, label),
        }
    }
}
