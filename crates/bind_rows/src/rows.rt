ghost use Rattle.std.specs.Prelude.{◌≡◌};
ghost use Rattle.bind_rows.specs.Contents.{has_term};

use crate::guards::Guard;
use crate::names::{ElementName, Leaf};
use inv_base::{Many, Txt};
use term_table::{DataType, Group, Term};

/// An element on the path of a row.
pub struct Step {
    pub name: ElementName,
    /// The number of the element in its table, from 1, in the order in which elements are written.
    pub number: u32,
    /// Whether the element is written even where nothing is in it.
    pub always: bool,
    /// The group of which one such element is one occurrence.
    pub group: Option<Group>,
    pub guards: Many<Guard>,
}

impl Drop for Step {
    fn drop(self) {
        let Step {
            name,
            number: _,
            always: _,
            group: _,
            guards,
        } = self;
        drop(name);
        drop(guards);
    }
}

/// What stands at the end of a row's path.
#[derive(Drop)]
pub enum Content {
    /// The value of a business term.
    Term(Term),
    /// This text, written wherever the element above it holds an entry. It isn't read.
    Constant(Txt),
}

/// How the value of a term is spelled.
#[derive(Clone, Copy, PartialEq, Eq)]
pub enum Form {
    /// As the semantic model spells it: a date with dashes, the code of BT-8 as 3, 35 or 432 (UNTDID 2005), a note by
    /// itself.
    Model,
    /// A date without dashes.
    PlainDate,
    /// The code of BT-8 as 5, 29 or 72 (UNTDID 2475), for 3, 35 and 432.
    DueDateTypeCode,
    /// A note (BT-22) behind its subject code (BT-21), if it has one: `#CODE#note`.
    CodedNote,
    /// As the semantic model spells a value of this type. The term is one that a user added: the model has no type for
    /// it.
    Typed(DataType),
    /// A date without dashes, of a term that a user added.
    TypedPlainDate,
}

/// How often a term's value may stand in its context.
#[derive(Clone, Copy, PartialEq, Eq)]
pub enum Repeats {
    Once,
    /// Several times with one value.
    Agreeing,
    /// Several times with one value, and it is written in each element above it.
    Spread,
}

/// What is written where an element would have to stand and holds no entry of its own.
#[derive(Drop)]
pub struct Placeholder {
    pub text: Txt,
    /// The term beside it in its element: the placeholder is written where that term stands, and isn't read as a value
    /// there.
    pub beside: Term,
}

/// When a row is written. All rows are read.
#[derive(Drop)]
pub enum Written {
    Always,
    Never,
    /// Where the value is an IBAN by its form: two letters, two digits, then 11 to 30 letters or digits.
    IfIban,
    IfNotIban,
    /// Where the scheme of the identifier stands, part 1 of its term.
    IfScheme,
    IfNoScheme,
    /// Always, and the placeholder where the term is absent.
    OrPlaceholder(Placeholder),
    /// An invoice's VAT total (BT-110), told from the other by its currency, which is that of the invoice.
    VatTotal,
    /// The VAT total in the accounting currency (BT-111).
    AccountingVatTotal,
}

/// What reading judges at a row's nodes, beside the form of a value.
#[derive(Clone, Copy)]
pub enum Check {
    Nothing,
    /// The element has to have a `schemeID`.
    Scheme,
    /// The attribute `format` has to be `102` where it isn't blank.
    Format,
    /// The string has to be `true`, `false`, `1` or `0`. Else it is a bad value of this term.
    Indicator(Term),
}

/// A row of a binding table.
pub struct Row {
    /// The elements from the root on.
    pub path: Many<Step>,
    pub leaf: Leaf,
    /// The groups of which the row's context has an occurrence. None in the invoice itself.
    pub outer: Option<Group>,
    pub inner: Option<Group>,
    pub content: Content,
    pub form: Form,
    pub repeats: Repeats,
    pub written: Written,
    pub check: Check,
}

impl Row {
    /// Whether it has a business term, and no constant.
    pub fn has_term(&self) -> bool
        ensures { result ≡ has_term self.now }
    {
        match self.content {
            Content::Term(_) => true,
            Content::Constant(_) => false,
        }
    }
}

impl Drop for Row {
    fn drop(self) {
        let Row {
            path,
            leaf,
            outer: _,
            inner: _,
            content,
            form: _,
            repeats: _,
            written,
            check: _,
        } = self;
        drop(path);
        drop(leaf);
        drop(content);
        drop(written);
    }
}
