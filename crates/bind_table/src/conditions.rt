ghost use Rattle.std.specs.Prelude.{◌≡◌, IfOk, map};
ghost use Rattle.std.specs.Str.{chars};
ghost use Rattle.bind_table.specs.Items as spec;

use bind_rows::{ElementName, Guard, Leaf, Many, Namespace, Place, Test, Word};
use inv_base::Txt;
use std::alloc::{AllocError, Global};

/// The name of an element.
#[derive(Clone, Copy)]
pub struct Tag {
    pub namespace: Namespace,
    pub local: &'static str,
}

/// What is asked of the nodes at a place, as in `bind_rows::Test`.
#[derive(Clone, Copy)]
pub enum Asked {
    OneOf(&'static [&'static str]),
    NoneOf(&'static [&'static str]),
    Present,
    Absent,
}

/// A condition of an element: where to look below it, and what is asked there.
#[derive(Clone, Copy)]
pub struct Condition {
    pub path: &'static [Tag],
    pub attribute: Option<&'static str>,
    pub asked: Asked,
}

pub(crate) fn name_of(tag: &Tag) -> ElementName
    ensures { result ≡ spec.name_of tag.now }
{
    ElementName {
        namespace: tag.namespace,
        local: Word::fixed(tag.local),
    }
}

fn names_of(alloc: Global, tags: &[Tag]) -> Result<Many<ElementName>, AllocError>
    ensures { IfOk result (λ names. names ≡ map spec.name_of tags.now) }
{
    let mut names = Many::new(alloc);
    'tags: for tag in tags {
        names.push(name_of(tag))?;
    }
    Ok(names)
}

fn texts_of(alloc: Global, words: &[&'static str]) -> Result<Many<Txt>, AllocError>
    ensures { IfOk result (λ texts. texts ≡ map spec.text_of words.now) }
{
    let mut texts = Many::new(alloc);
    'words: for word in words {
        texts.push(Txt::of(alloc, word)?)?;
    }
    Ok(texts)
}

pub(crate) fn attribute_leaf(alloc: Global, name: &str) -> Result<Leaf, AllocError>
    ensures { IfOk result (λ leaf. leaf ≡ spec.attribute_leaf (chars name.now)) }
{
    Ok(Leaf::Attribute(Txt::of(alloc, name)?))
}

fn leaf_of(alloc: Global, attribute: Option<&'static str>) -> Result<Leaf, AllocError>
    ensures { IfOk result (λ leaf. leaf ≡ spec.leaf_of attribute.entry) }
{
    match attribute {
        None => Ok(Leaf::Element),
        Some(name) => attribute_leaf(alloc, name),
    }
}

fn test_of(alloc: Global, asked: &Asked) -> Result<Test, AllocError>
    ensures { IfOk result (λ test. test ≡ spec.test_of asked.now) }
{
    match asked {
        Asked::OneOf(words) => Ok(Test::OneOf(texts_of(alloc, words)?)),
        Asked::NoneOf(words) => Ok(Test::NoneOf(texts_of(alloc, words)?)),
        Asked::Present => Ok(Test::Present),
        Asked::Absent => Ok(Test::Absent),
    }
}

fn guard_of(alloc: Global, condition: &Condition) -> Result<Guard, AllocError>
    ensures { IfOk result (λ guard. guard ≡ spec.guard_of condition.now) }
{
    let place = Place {
        path: names_of(alloc, condition.path)?,
        leaf: leaf_of(alloc, condition.attribute)?,
    };
    let test = test_of(alloc, &condition.asked)?;
    Ok(Guard { place, test })
}

pub(crate) fn guards_of(alloc: Global, conditions: &[Condition]) -> Result<Many<Guard>, AllocError>
    ensures { IfOk result (λ guards. guards ≡ map spec.guard_of conditions.now) }
{
    let mut guards = Many::new(alloc);
    'conditions: for condition in conditions {
        guards.push(guard_of(alloc, condition)?)?;
    }
    Ok(guards)
}
