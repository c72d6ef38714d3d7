//! Rules that put each other, by hand.

use schematron_graph::{Budget, Graph, Part, Spot, Thing};
use std::alloc::{AllocError, Global};
use std::test::Fail;
use test_rows::expect;

fn thing(number: u32) -> Part {
    Part::Own(Thing {
        number,
        counts: number < 100,
    })
}

fn numbers_of(alloc: Global, things: &[Thing]) -> Result<Vec<u32>, AllocError> {
    let mut numbers = Vec::new(alloc);
    'things: for thing in things {
        numbers.push(thing.number)?;
    }
    Ok(numbers)
}

fn are_numbered(alloc: Global, things: &[Thing], want: &[u32]) -> Result<bool, AllocError> {
    let numbers = numbers_of(alloc, things)?;
    Ok(numbers.as_slice() == want)
}

/// The things of a body without copies are those of these numbers.
fn are_firsts(
    alloc: Global,
    graph: &Graph,
    body: &[Part],
    want: &[u32],
) -> Result<bool, AllocError> {
    let mut ample = Budget { left: u64::MAX };
    let things = graph.firsts(alloc, &mut ample, body)?;
    are_numbered(alloc, &things, want)
}

/// Whether the things of a body are those of these numbers.
fn are_all(alloc: Global, graph: &Graph, body: &[Part], want: &[u32]) -> Result<bool, AllocError> {
    let things = graph.expand(alloc, want.len(), body)?;
    are_numbered(alloc, &things, want)
}

/// What a word stands for: `>` and a number puts the rule of that number, and a number alone is a thing.
fn part_of(word: &str) -> Part {
    match word.strip_prefix('>') {
        Some(rule) => Part::Puts(rule.parse().unwrap_or(0)),
        None => thing(word.parse().unwrap_or(0)),
    }
}

fn body_of(alloc: Global, words: &str) -> Result<Vec<Part>, AllocError> {
    let mut body = Vec::new(alloc);
    'words: for word in words.split_whitespace() {
        body.push(part_of(word))?;
    }
    Ok(body)
}

/// The graph of rules that stand in a line each.
fn graph_of(alloc: Global, lines: &str) -> Result<Graph, AllocError> {
    let mut rules = Vec::new(alloc);
    'lines: for line in lines.lines() {
        rules.push(body_of(alloc, line)?)?;
    }
    Graph::new(alloc, rules)
}

/// 0 puts 1 twice, 2 and 3 put each other, 4 puts one of them, 5 nothing, 6 a rule that isn't there.
const SMALL: &str = "\
>1 3 >1
1 100 2
>0 >3 4
5 >2
>0 >3

>9 >5 6";

fn are_put_in_order(alloc: Global, graph: &Graph) -> Result<bool, AllocError> {
    let body = body_of(alloc, "7 >0 >4 >2 >6")?;
    let want = [7, 1, 100, 2, 3, 1, 100, 2, 6];
    Ok(graph.size(&body) == 7 && are_all(alloc, graph, &body, &want)?)
}

/// Which of some rules end.
fn ends_of(graph: &Graph) -> [bool; 7] {
    [
        graph.ends(0),
        graph.ends(1),
        graph.ends(2),
        graph.ends(3),
        graph.ends(4),
        graph.ends(6),
        graph.ends(9),
    ]
}

fn expect_small(alloc: Global, graph: &Graph) -> Result<(), Fail> {
    expect(are_put_in_order(alloc, graph)?, "order, size")?;
    let ends = [true, true, false, false, false, true, true];
    expect(ends_of(graph) == ends, "ends")?;
    let back = Some(Spot { rule: 2, part: 1 });
    expect(graph.first_back(alloc)? == back, "back")
}

/// A thing that doesn't count is put, and isn't counted; what doesn't end puts nothing.
#[test]
fn things_are_put_in_order(rt: HostRuntime) -> Result<(), Fail> {
    let graph = graph_of(rt.alloc(), SMALL)?;
    let held = expect_small(rt.alloc(), &graph);
    drop(graph);
    held
}

/// Rules of which each but the last puts the next one twice.
fn doubled(alloc: Global, count: usize) -> Result<Graph, AllocError> {
    let mut rules = Vec::new(alloc);
    'rules: for rule in 0..count {
        let next = Part::Puts(rule.saturating_add(1));
        rules.push(vec![in alloc; next, next]?)?;
    }
    rules.push(vec![in alloc; thing(1), thing(100), thing(2)]?)?;
    Graph::new(alloc, rules)
}

fn sizes_of(graph: &Graph) -> [u64; 5] {
    [
        graph.size(&[Part::Puts(90)]),
        graph.size(&[Part::Puts(38)]),
        graph.size(&[Part::Puts(37)]),
        graph.size(&[Part::Puts(0)]),
        graph.size(&[Part::Puts(101)]),
    ]
}

/// A hundred rules that double each other have a size, which stops; nothing of them is built.
#[test]
fn sizes_stop(rt: HostRuntime) -> Result<(), Fail> {
    let graph = doubled(rt.alloc(), 100)?;
    let sizes = sizes_of(&graph);
    let back = graph.first_back(rt.alloc());
    drop(graph);
    expect(sizes == [2048, 1 << 63, u64::MAX, u64::MAX, 0], "sizes")?;
    expect(back? == None, "back")
}

/// Where memory isn't wanting, a body has no more things than so many.
fn has_at_most(alloc: Global, graph: &Graph, most: usize, body: &[Part]) -> bool {
    graph.expand(alloc, most, body).is_ok()
}

/// A bound is kept: twelve things are too many for eleven, and 2 ^ 100 for any.
#[test]
fn bounds_are_kept(rt: HostRuntime) -> Result<(), Fail> {
    let graph = doubled(rt.alloc(), 100)?;
    let kept = [
        has_at_most(rt.alloc(), &graph, 12, &[Part::Puts(98)]),
        has_at_most(rt.alloc(), &graph, 11, &[Part::Puts(98)]),
        has_at_most(rt.alloc(), &graph, 20_000, &[Part::Puts(0)]),
    ];
    drop(graph);
    expect(kept == [true, false, false], "bound")
}

/// Whether the things of so many rules that double each other are three without copies.
fn are_three(alloc: Global, count: usize) -> Result<bool, AllocError> {
    let graph = doubled(alloc, count)?;
    let held = are_firsts(alloc, &graph, &[Part::Puts(0)], &[1, 100, 2]);
    drop(graph);
    held
}

/// Without copies the same hundred rules are gone over once each, and so are as many as a large file may have.
#[test]
fn copies_are_left_out(rt: HostRuntime) -> Result<(), Fail> {
    expect(are_three(rt.alloc(), 100)?, "hundred")?;
    expect(are_three(rt.alloc(), 100_000)?, "deep")
}

/// Rules that take the most turns for what they have: ten for four things.
const BUSHY: &str = "\
>1 >2
1 2
3 4";

fn takes_ten(alloc: Global, graph: &Graph) -> Result<bool, AllocError> {
    let mut enough = Budget { left: 10 };
    let things = graph.firsts(alloc, &mut enough, &[Part::Puts(0)])?;
    Ok(things.len() == 4 && enough.left == 0)
}

fn gives_up(alloc: Global, graph: &Graph) -> bool {
    let mut few = Budget { left: 9 };
    graph.firsts(alloc, &mut few, &[Part::Puts(0)]).is_err()
}

/// A walk takes its turns of those that are left, and gives up where they don't suffice.
#[test]
fn turns_are_taken(rt: HostRuntime) -> Result<(), Fail> {
    let graph = graph_of(rt.alloc(), BUSHY)?;
    let enough = takes_ten(rt.alloc(), &graph);
    let too_few = gives_up(rt.alloc(), &graph);
    drop(graph);
    expect(enough?, "things, budget")?;
    expect(too_few, "too few")
}

/// How often the things of a rule are found before no turn is left, at most so often.
fn walks_until_none(alloc: Global, graph: &Graph, mut left: Budget, most: usize) -> usize {
    'walks: for walk in 0..most {
        if graph.firsts(alloc, &mut left, &[Part::Puts(0)]).is_err() {
            return walk;
        }
    }
    most
}

/// One rule of 3,000 things.
fn long(alloc: Global) -> Result<Graph, AllocError> {
    let mut body = Vec::new(alloc);
    'things: for number in 0..3_000 {
        body.push(thing(number))?;
    }
    Graph::new(alloc, vec![in alloc; body]?)
}

/// What is put very often doesn't cost its length each time: 300,000 turns suffice for 99 of 3,000 walks.
#[test]
fn many_walks_end(rt: HostRuntime) -> Result<(), Fail> {
    let graph = long(rt.alloc())?;
    let left = Budget { left: 300_000 };
    let walks = walks_until_none(rt.alloc(), &graph, left, 3_000);
    drop(graph);
    expect(walks == 99, "walks")
}

/// Numbers that look random, by a linear congruence.
#[derive(Drop)]
struct Dice {
    state: u64,
}

impl Dice {
    /// One below the bound, or 0.
    fn roll(&mut self, bound: u64) -> u64 {
        self.state = self
            .state
            .wrapping_mul(6_364_136_223_846_793_005)
            .wrapping_add(1_442_695_040_888_963_407);
        (self.state >> 33).checked_rem(bound).unwrap_or(0)
    }

    fn part(&mut self) -> Part {
        let number = self.roll(8);
        if self.roll(2) == 0 {
            thing(u32::try_from(number).unwrap_or(0))
        } else {
            Part::Puts(usize::try_from(number).unwrap_or(0))
        }
    }

    fn body(&mut self, alloc: Global) -> Result<Vec<Part>, AllocError> {
        let mut parts = Vec::new(alloc);
        'parts: for _ in 0..self.roll(5) {
            parts.push(self.part())?;
        }
        Ok(parts)
    }
}

/// The numbers without their copies, one looked for among the others.
fn without_copies(alloc: Global, numbers: &[u32]) -> Result<Vec<u32>, AllocError> {
    let mut found: Vec<u32> = Vec::new(alloc);
    'numbers: for number in numbers {
        if !found.contains(number) {
            found.push(*number)?;
        }
    }
    Ok(found)
}

fn random_graph(alloc: Global, dice: &mut Dice) -> Result<Graph, AllocError> {
    let mut rules = Vec::new(alloc);
    'rules: for _ in 0..6 {
        rules.push(dice.body(alloc)?)?;
    }
    Graph::new(alloc, rules)
}

fn all_numbers(alloc: Global, graph: &Graph, body: &[Part]) -> Result<Vec<u32>, AllocError> {
    let all = graph.expand(alloc, 100_000, body)?;
    numbers_of(alloc, &all)
}

/// Whether the things of a body without copies are those that are written out, without copies.
fn agrees(alloc: Global, graph: &Graph, body: &[Part]) -> Result<bool, AllocError> {
    let numbers = all_numbers(alloc, graph, body)?;
    let want = without_copies(alloc, &numbers)?;
    are_firsts(alloc, graph, body, &want)
}

fn agrees_on_body(alloc: Global, dice: &mut Dice, graph: &Graph) -> Result<bool, AllocError> {
    let body = dice.body(alloc)?;
    agrees(alloc, graph, &body)
}

fn agrees_on_one(alloc: Global, dice: &mut Dice) -> Result<bool, AllocError> {
    let graph = random_graph(alloc, dice)?;
    let agreed = agrees_on_body(alloc, dice, &graph);
    drop(graph);
    agreed
}

/// What is gone over once is what is written out, without copies, also where rules lead back to themselves.
#[test]
fn firsts_are_those_of_all(rt: HostRuntime) -> Result<(), Fail> {
    let mut dice = Dice { state: 1 };
    let mut agreed = true;
    'graphs: for _ in 0..2000 {
        agreed &= agrees_on_one(rt.alloc(), &mut dice)?;
    }
    expect(agreed, "firsts")
}

/// Rules that all lead to a ring of as many, and aren't on it.
fn ring(alloc: Global, count: usize) -> Result<Graph, AllocError> {
    let mut rules = Vec::new(alloc);
    'before: for _ in 0..count {
        rules.push(vec![in alloc; Part::Puts(count)]?)?;
    }
    'ring: for rule in 1..count {
        rules.push(vec![in alloc; thing(1), Part::Puts(count.saturating_add(rule))]?)?;
    }
    rules.push(vec![in alloc; Part::Puts(count)]?)?;
    Graph::new(alloc, rules)
}

/// A large ring is found behind the many rules that lead to it, without trying each of them.
#[test]
fn ring_is_found(rt: HostRuntime) -> Result<(), Fail> {
    let graph = ring(rt.alloc(), 20_000)?;
    let back = graph.first_back(rt.alloc());
    let ends = graph.ends(0);
    drop(graph);
    let want = Some(Spot {
        rule: 20_000,
        part: 1,
    });
    expect(back? == want, "back")?;
    expect(!ends, "ends")
}
