ghost use Rattle.std.specs.Prelude.{◌≡◌, IfOk, option_map};
ghost use Rattle.std.specs.Cow.{cow_str_bytes};
ghost use Rattle.json_reading.specs.Texts.{between};
ghost use Rattle.invoice_data.specs.Names.{text_at};

use code_lists::CodeLists;
use extension_files::ExtTerm;
use json_reading::{JsonText, Span};
use std::alloc::{AllocError, Global};
use std::borrow::CowStr;
use std::marker::Model;

/// What members are read by: the text, the terms that a user's table adds, and the code lists.
#[derive(Drop)]
pub(crate) struct Input<'i> {
    pub(crate) alloc: Global,
    pub(crate) text: &'i JsonText<'i>,
    pub(crate) added: &'i [ExtTerm],
    pub(crate) lists: &'i CodeLists,
}

impl<'i> Model for Input<'i> {
    ghost use Rattle.std.specs.Prelude.{◌≡◌, true};
    ghost use Rattle.extension_files.specs.Extensions.{is_extension};
    ghost use Rattle.invoice_data.specs.Names.{Source};

    ghost Value = { Source };

    ghost view = { λ i. record { bytes = i.text.now.bytes.now; added = i.added.now; lists = i.lists.now } };

    ghost invariant = { λ i. is_extension i.added.now ≡ true };
}

impl<'i> Input<'i> {
    /// How a name or value is spelled.
    pub(crate) fn spelling(&self, span: Span) -> &'i [u8]
        ensures { result.now ≡ between span.at span.end self.now.bytes }
    {
        self.text.spelling(span)
    }

    /// The text that a name or a string says, if it has one.
    pub(crate) fn text_of(&self, span: Span) -> Result<Option<CowStr<'i, Global>>, AllocError>
        ensures { IfOk result (λ found. option_map (λ c. cow_str_bytes c) found ≡ text_at self.now.bytes span) }
    {
        match self.text.text_of(self.alloc, span) {
            Ok(Some(text)) => {
                // what is lent is known to be UTF-8
                let _lent = text.as_str();
                Ok(Some(text))
            }
            Ok(None) => Ok(None),
            Err(error) => Err(error),
        }
    }
}
