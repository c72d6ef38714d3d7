ghost use Rattle.std.specs.Prelude.{◌≡◌, ◌≤◌, length};
ghost use Rattle.bind_table.specs.Crossings as spec;

use bind_rows::{Same, Step, is_same_or_none};
use term_table::Group;

/// Whether both go through the same elements until they go through two of different names, and neither ends before.
pub(crate) fn part_by_name(a: &[Step], b: &[Step]) -> bool
    ensures { result ≡ spec.part_by_name a.now b.now }
{
    let mut xs = a;
    let mut ys = b;
    'steps: while let Some((x, more_xs)) = xs.split_first() {
        match ys.split_first() {
            None => return false,
            Some((y, more_ys)) => {
                if !x.name.is_same(&y.name) {
                    return true;
                }
                if !x.is_same(y) {
                    return false;
                }
                xs = more_xs;
                ys = more_ys;
            }
        }
    }
    false
}

/// How many elements have one name in both.
pub(crate) fn shared(a: &[Step], b: &[Step]) -> usize
    ensures { result ≡ spec.shared a.now b.now }
{
    let mut xs = a;
    let mut ys = b;
    let mut count = 0;
    'steps: while let Some((x, more_xs)) = xs.split_first() {
        match ys.split_first() {
            None => return count,
            Some((y, more_ys)) => {
                if !x.name.is_same(&y.name) {
                    return count;
                }
                count += 1;
                xs = more_xs;
                ys = more_ys;
            }
        }
    }
    count
}

fn carries_at_most(group: Option<Group>, step: &Step) -> bool
    ensures { result ≡ spec.carries_at_most group step.now }
{
    step.group.is_none() || is_same_or_none(step.group, group)
}

/// Whether of the elements of `b` that have the names of `a` each carries this group or none.
pub(crate) fn passes_no_group(group: Option<Group>, a: &[Step], b: &[Step]) -> bool
    ensures { result ≡ spec.passes_no_group group a.now b.now }
{
    let mut xs = a;
    let mut ys = b;
    'steps: while let Some((x, more_xs)) = xs.split_first() {
        match ys.split_first() {
            None => return true,
            Some((y, more_ys)) => {
                if !x.name.is_same(&y.name) {
                    return true;
                }
                if !carries_at_most(group, y) {
                    return false;
                }
                xs = more_xs;
                ys = more_ys;
            }
        }
    }
    true
}

fn is_front(a: &[Step], b: &[Step]) -> bool
    ensures { result ≡ spec.is_front a.now b.now }
{
    let mut xs = a;
    let mut ys = b;
    'steps: while let Some((x, more_xs)) = xs.split_first() {
        match ys.split_first() {
            None => return false,
            Some((y, more_ys)) => {
                if !x.name.is_same(&y.name) {
                    return false;
                }
                xs = more_xs;
                ys = more_ys;
            }
        }
    }
    true
}

/// Whether the names of `a` are the first ones of `b`, which has more.
pub(crate) fn is_proper_front(a: &[Step], b: &[Step]) -> bool
    ensures { result ≡ spec.is_proper_front a.now b.now }
{
    is_front(a, b) && a.len() < b.len()
}
