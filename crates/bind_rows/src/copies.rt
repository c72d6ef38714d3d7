ghost use Rattle.std.specs.Prelude.{◌≡◌, IfOk};

use crate::guards::{Guard, Place, Test};
use crate::names::{ElementName, Leaf};
use crate::rows::{Content, Placeholder, Row, Step, Written};
use crate::words::Word;
use inv_base::{Many, Txt};
use std::alloc::{AllocError, Global};

/// Values that may be had twice, at the cost of memory.
pub trait Copied {
    /// The same value once more.
    fn copied(&self, alloc: Global) -> Result<Self, AllocError>
        ensures { IfOk result (λ x. x ≡ self.now) };
}

impl<T: Copied + Drop> Copied for Many<T> {
    fn copied(&self, alloc: Global) -> Result<Many<T>, AllocError> {
        let mut copies = Many::new(alloc);
        'items: for item in self.as_slice() {
            copies.push(item.copied(alloc)?)?;
        }
        Ok(copies)
    }
}

impl Copied for Txt {
    fn copied(&self, _alloc: Global) -> Result<Txt, AllocError> {
        self.try_clone()
    }
}

impl Copied for Word {
    fn copied(&self, _alloc: Global) -> Result<Word, AllocError> {
        self.try_clone()
    }
}

impl Copied for ElementName {
    fn copied(&self, alloc: Global) -> Result<ElementName, AllocError> {
        Ok(ElementName {
            namespace: self.namespace,
            local: self.local.copied(alloc)?,
        })
    }
}

impl Copied for Leaf {
    fn copied(&self, alloc: Global) -> Result<Leaf, AllocError> {
        match self {
            Leaf::Element => Ok(Leaf::Element),
            Leaf::Attribute(name) => Ok(Leaf::Attribute(name.copied(alloc)?)),
        }
    }
}

impl Copied for Place {
    fn copied(&self, alloc: Global) -> Result<Place, AllocError> {
        Ok(Place {
            path: self.path.copied(alloc)?,
            leaf: self.leaf.copied(alloc)?,
        })
    }
}

impl Copied for Test {
    fn copied(&self, alloc: Global) -> Result<Test, AllocError> {
        match self {
            Test::OneOf(texts) => Ok(Test::OneOf(texts.copied(alloc)?)),
            Test::NoneOf(texts) => Ok(Test::NoneOf(texts.copied(alloc)?)),
            Test::Present => Ok(Test::Present),
            Test::Absent => Ok(Test::Absent),
        }
    }
}

impl Copied for Guard {
    fn copied(&self, alloc: Global) -> Result<Guard, AllocError> {
        Ok(Guard {
            place: self.place.copied(alloc)?,
            test: self.test.copied(alloc)?,
        })
    }
}

impl Copied for Step {
    fn copied(&self, alloc: Global) -> Result<Step, AllocError> {
        Ok(Step {
            name: self.name.copied(alloc)?,
            number: self.number,
            always: self.always,
            group: self.group,
            guards: self.guards.copied(alloc)?,
        })
    }
}

impl Copied for Content {
    fn copied(&self, alloc: Global) -> Result<Content, AllocError> {
        match self {
            Content::Term(term) => Ok(Content::Term(*term)),
            Content::Constant(text) => Ok(Content::Constant(text.copied(alloc)?)),
        }
    }
}

impl Copied for Placeholder {
    fn copied(&self, alloc: Global) -> Result<Placeholder, AllocError> {
        Ok(Placeholder {
            text: self.text.copied(alloc)?,
            beside: self.beside,
        })
    }
}

impl Copied for Written {
    fn copied(&self, alloc: Global) -> Result<Written, AllocError> {
        match self {
            Written::Always => Ok(Written::Always),
            Written::Never => Ok(Written::Never),
            Written::IfIban => Ok(Written::IfIban),
            Written::IfNotIban => Ok(Written::IfNotIban),
            Written::IfScheme => Ok(Written::IfScheme),
            Written::IfNoScheme => Ok(Written::IfNoScheme),
            Written::OrPlaceholder(placeholder) => Ok(Written::OrPlaceholder(placeholder.copied(
                alloc,
            )?)),
            Written::VatTotal => Ok(Written::VatTotal),
            Written::AccountingVatTotal => Ok(Written::AccountingVatTotal),
        }
    }
}

impl Copied for Row {
    fn copied(&self, alloc: Global) -> Result<Row, AllocError> {
        Ok(Row {
            path: self.path.copied(alloc)?,
            leaf: self.leaf.copied(alloc)?,
            outer: self.outer,
            inner: self.inner,
            content: self.content.copied(alloc)?,
            form: self.form,
            repeats: self.repeats,
            written: self.written.copied(alloc)?,
            check: self.check,
        })
    }
}
