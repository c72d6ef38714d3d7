ghost use Rattle.std.specs.Prelude.{◌≡◌};
ghost use Rattle.std.specs.Cmp.Lexicographic.{pointwise};
ghost use Rattle.std.specs.Str.{bytes_eq};
ghost use Rattle.bind_rows.specs.Same as spec;

use crate::guards::{Guard, Place, Test};
use crate::names::{ElementName, Leaf, Namespace};
use crate::rows::Step;
use crate::words::Word;
use inv_base::{Txt, is_same_text};
use term_table::Group;

/// Values that are compared as contracts see them.
pub trait Same {
    ghost same: { Self → Self → Rattle.std.specs.Prelude.Bool };

    fn is_same(&self, other: &Self) -> bool
        ensures { result ≡ same self.now other.now };
}

/// Whether two lists have the same items in one order.
pub fn are_same<T: Same>(a: &[T], b: &[T]) -> bool
    ensures { result ≡ pointwise T.same a.now b.now }
{
    let mut xs = a;
    let mut ys = b;
    'items: while let Some((x, more_xs)) = xs.split_first() {
        match ys.split_first() {
            None => return false,
            Some((y, more_ys)) => {
                if !x.is_same(y) {
                    return false;
                }
                xs = more_xs;
                ys = more_ys;
            }
        }
    }
    ys.is_empty()
}

impl Same for Txt {
    ghost same = { bytes_eq };

    fn is_same(&self, other: &Txt) -> bool {
        is_same_text(self.as_str(), other.as_str())
    }
}

impl Same for Word {
    ghost same = { bytes_eq };

    fn is_same(&self, other: &Word) -> bool {
        is_same_text(self.as_str(), other.as_str())
    }
}

fn is_same_namespace(a: Namespace, b: Namespace) -> bool
    ensures { result ≡ spec.same_namespace a b }
{
    a == b
}

impl Same for ElementName {
    ghost same = { spec.same_name };

    fn is_same(&self, other: &ElementName) -> bool {
        is_same_namespace(self.namespace, other.namespace) && self.local.is_same(&other.local)
    }
}

impl Same for Leaf {
    ghost same = { spec.same_leaf };

    fn is_same(&self, other: &Leaf) -> bool {
        match self {
            Leaf::Element => match other {
                Leaf::Element => true,
                Leaf::Attribute(_) => false,
            },
            Leaf::Attribute(name) => match other {
                Leaf::Element => false,
                Leaf::Attribute(other) => name.is_same(other),
            },
        }
    }
}

impl Same for Place {
    ghost same = { spec.same_place };

    fn is_same(&self, other: &Place) -> bool {
        are_same(self.path.as_slice(), other.path.as_slice()) && self.leaf.is_same(&other.leaf)
    }
}

impl Same for Test {
    ghost same = { spec.same_test };

    fn is_same(&self, other: &Test) -> bool {
        match self {
            Test::OneOf(texts) => match other {
                Test::OneOf(others) => are_same(texts.as_slice(), others.as_slice()),
                _ => false,
            },
            Test::NoneOf(texts) => match other {
                Test::NoneOf(others) => are_same(texts.as_slice(), others.as_slice()),
                _ => false,
            },
            Test::Present => match other {
                Test::Present => true,
                _ => false,
            },
            Test::Absent => match other {
                Test::Absent => true,
                _ => false,
            },
        }
    }
}

impl Same for Guard {
    ghost same = { spec.same_guard };

    fn is_same(&self, other: &Guard) -> bool {
        self.place.is_same(&other.place) && self.test.is_same(&other.test)
    }
}

fn is_same_group(a: Group, b: Group) -> bool
    ensures { result ≡ spec.same_group a b }
{
    a == b
}

/// Whether both are the same group, or both are none.
pub fn is_same_or_none(a: Option<Group>, b: Option<Group>) -> bool
    ensures { result ≡ spec.same_or_none a b }
{
    match a {
        None => match b {
            None => true,
            Some(_) => false,
        },
        Some(a) => match b {
            None => false,
            Some(b) => is_same_group(a, b),
        },
    }
}

impl Same for Step {
    ghost same = { spec.same_step };

    fn is_same(&self, other: &Step) -> bool {
        if self.number != other.number {
            return false;
        }
        self.name.is_same(&other.name)
            && self.always == other.always
            && is_same_or_none(self.group, other.group)
            && are_same(self.guards.as_slice(), other.guards.as_slice())
    }
}
