ghost use Rattle.std.specs.Prelude.{◌≡◌, ◌++◌, ◌∷◌, [], ℕ, List, chars, string_bytes, IfOk, OnOk};
ghost use Rattle.schematron_texts.specs.Messages as spec;

use crate::pushing::push;
use inv_base::is_white_space;
use std::alloc::{AllocError, Global};
use std::marker::Model;

/// What was told of the spaces so far.
#[derive(Clone, Copy, PartialEq, Eq)]
struct Spacing {
    /// A character that is no space has come.
    begun: bool,
    /// A space waits for a character that is none.
    waits: bool,
}

/// The message of a finding, made piece by piece: each run of white space becomes one space, also where it goes on from
/// one piece to the next, and there is none at the ends.
///
/// Behind an error of `push` it is good for `clear` alone.
pub struct Message {
    text: String,
    spacing: Spacing,
}

impl Drop for Message {
    fn drop(self) {
        let Message { text, spacing } = self;
        drop(text);
        drop(spacing);
    }
}

impl Model for Message {
    ghost use Rattle.std.specs.Prelude.{chars, string_bytes};
    ghost use Rattle.schematron_texts.specs.Messages.{Written};

    ghost Value = { Written };

    ghost view = { λ message. record { text = chars (string_bytes message.text); begun = message.spacing.begun; waits = message.spacing.waits } };
}

impl Message {
    /// The message of no piece.
    pub fn new(alloc: Global) -> Message
        ensures { result ≡ spec.message_of [] }
    {
        Message {
            text: String::new(alloc),
            spacing: Spacing {
                begun: false,
                waits: false,
            },
        }
    }

    /// The message of no piece again, which keeps its memory.
    pub fn clear(&mut self)
        ensures { self.new ≡ spec.message_of [] }
    {
        self.text.clear();
        self.spacing = Spacing {
            begun: false,
            waits: false,
        };
    }

    /// Adds a piece: the message of what was pushed so far becomes that of it and the piece.
    pub fn push(&mut self, piece: &str) -> Result<(), AllocError>
        ensures { (told : List ℕ) → self.old ≡ spec.message_of told → OnOk result (self.new ≡ spec.message_of (told ++ chars piece.now)) }
    {
        self.spacing = push_piece(&mut self.text, self.spacing, piece)?;
        Ok(())
    }

    /// The message so far.
    pub fn as_str(&self) -> &str
        ensures { chars result.now ≡ self.now.text }
    {
        self.text.as_str()
    }
}

fn push_piece(text: &mut String, spacing: Spacing, piece: &str) -> Result<Spacing, AllocError>
    ensures { (told : List ℕ) → record { text = chars (string_bytes text.old); begun = spacing.begun; waits = spacing.waits } ≡ spec.message_of told
        → IfOk result (λ behind. record { text = chars (string_bytes text.new); begun = behind.begun; waits = behind.waits } ≡ spec.message_of
        (told ++ chars piece.now)) }
{
    let mut spacing = spacing;
    'characters: for c in piece.chars() {
        spacing = push_character(text, spacing, c)?;
    }
    Ok(spacing)
}

fn push_character(text: &mut String, spacing: Spacing, c: char) -> Result<Spacing, AllocError>
    ensures { (told : List ℕ) → record { text = chars (string_bytes text.old); begun = spacing.begun; waits = spacing.waits } ≡ spec.message_of told
        → IfOk result (λ behind. record { text = chars (string_bytes text.new); begun = behind.begun; waits = behind.waits } ≡ spec.message_of
        (told ++ c ∷ [])) }
{
    if is_white_space(c) {
        return Ok(Spacing {
            begun: spacing.begun,
            waits: spacing.begun,
        });
    }
    push_spaced(text, spacing.waits, c)?;
    Ok(Spacing {
        begun: true,
        waits: false,
    })
}

/// Puts a character behind a text, and a space between them if one waits.
fn push_spaced(text: &mut String, waits: bool, c: char) -> Result<(), AllocError>
    ensures { OnOk result (chars (string_bytes text.new) ≡ chars (string_bytes text.old) ++ spec.spaced waits c) }
{
    if !waits {
        return push(text, c);
    }
    push(text, ' ')?;
    push(text, c)
}
