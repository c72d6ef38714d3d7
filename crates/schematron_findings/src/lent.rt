ghost use Rattle.std.specs.Prelude.{◌≡◌, chars};

use std::marker::Model;

/// A text that is lent from a rule file, or from the program. Contracts see the list of its characters.
#[derive(Drop)]
pub struct Lent<'r> {
    text: &'r str,
}

impl<'r> Model for Lent<'r> {
    ghost use Rattle.std.specs.Prelude.{List, ℕ, chars};

    ghost Value = { List ℕ };

    ghost view = { λ lent. chars lent.text.now };
}

impl<'r> Lent<'r> {
    /// A text that outlives what it is told in.
    pub fn of(text: &'r str) -> Lent<'r>
        ensures { result ≡ chars text.now }
    {
        Lent { text }
    }

    /// The text itself.
    pub fn as_str(&self) -> &'r str
        ensures { chars result.now ≡ self.now }
    {
        self.text
    }
}
