//! The turns of `for`, `some` and `every` (XPath 2.0, sections 3.7 and 3.9).
ghost use Rattle.std.specs.Prelude.{◌≡◌, ℕ, ◌+◌, ◌≤◌, length, reverse, take};
ghost use Rattle.xpath_items.specs.Faults.{Gives};
ghost use Rattle.xpath_operators.specs.Nodes.{AreWithin, AllWithin};
ghost use Rattle.xpath_parts.specs.Turns as spec;
ghost use Rattle.xpath_parts.specs.Turns.{Takes, TakesFirst, Advances};

use std::alloc::{AllocError, Global};
use std::marker::Model;
use xpath_grammar::operators::Binder;
use xpath_items::{Fault, Item, Seq};
use xpath_operators::{boolean, truth};

/// The items of a variable that are still to be taken, the last one first. Contracts see them in their order.
#[derive(Drop)]
pub struct Turn<'a> {
    items: Vec<Item<'a>>,
}

impl<'a> Model for Turn<'a> {
    ghost use Rattle.std.specs.Prelude.{List, reverse};
    ghost use Rattle.xpath_items.specs.declared.item.Item.{Item};

    ghost Value = { List Item };

    ghost view = { λ turn. reverse turn.items.items };
}

impl<'a> Turn<'a> {
    pub fn new(items: Seq<'a>) -> Turn<'a>
        ensures { result ≡ items.entry }
    {
        let mut items = items.into_items();
        items.reverse();
        Turn { items }
    }

    fn next(&mut self) -> Option<Item<'a>>
        ensures { TakesFirst self.old result self.new }
    {
        self.items.pop()
    }
}

/// Binds the next item that is to be taken, and takes it from its turns. Turns that are through are dropped, and with
/// them the items of the variables inside. Answers whether there was one. The bound items before the height stand
/// outside.
pub fn advance<'a>(
    turns: &mut Vec<Turn<'a>>,
    bound: &mut Vec<Item<'a>>,
    height: usize,
) -> Result<bool, AllocError>
    requires { height + length turns.old.items ≤ length bound.old.items + 1 }
    ensures advances { Advances height turns.old.items bound.old.items result turns.new.items bound.new.items }
    ensures kept { take height bound.new.items ≡ take height bound.old.items }
    ensures bound { (count : ℕ) → AreWithin count bound.old.items → AllWithin count turns.old.items → AreWithin count bound.new.items }
    ensures turns { (count : ℕ) → AllWithin count turns.old.items → AllWithin count turns.new.items }
{
    'turns: while let Some(turn) = turns.pop() {
        let mut turn = turn;
        match turn.next() {
            Some(item) => {
                bound.truncate(height + turns.len());
                turns.push(turn)?;
                bound.push(item)?;
                return Ok(true);
            }
            None => (),
        }
    }
    Ok(false)
}

/// Takes a turn's value: puts its items behind the others, or answers whether its truth decides.
pub fn take_turn<'a>(binder: Binder, out: &mut Seq<'a>, value: Seq<'a>) -> Result<bool, Fault>
    ensures takes { Takes binder out.old value.entry result out.new }
    ensures within { (count : ℕ) → AreWithin count out.old → AreWithin count value.entry → AreWithin count out.new }
{
    match binder {
        Binder::For => {
            out.append(value)?;
            Ok(false)
        }
        Binder::Some => Ok(truth(&value)?),
        Binder::Every => Ok(!truth(&value)?),
    }
}

/// What a turn that decides makes of all.
pub fn decided<'a>(alloc: Global, binder: Binder) -> Result<Seq<'a>, Fault>
    ensures { Gives result (spec.decided binder) }
{
    match binder {
        Binder::For => Ok(Seq::new(alloc)),
        Binder::Some => boolean(alloc, Ok(true)),
        Binder::Every => boolean(alloc, Ok(false)),
    }
}

/// What the turns come to where none decides.
pub fn ended<'a>(alloc: Global, binder: Binder, out: Seq<'a>) -> Result<Seq<'a>, Fault>
    ensures { Gives result (spec.after binder out.entry (spec.no_turns binder)) }
{
    match binder {
        Binder::For => Ok(out),
        Binder::Some => boolean(alloc, Ok(false)),
        Binder::Every => boolean(alloc, Ok(true)),
    }
}
