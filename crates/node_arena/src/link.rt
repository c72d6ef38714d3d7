ghost use Rattle.std.specs.Prelude.{◌≡◌, ◌+◌, ◌^◌, ◌<◌, Some, None};

use std::marker::Model;

/// The number of a node, or none, in four bytes: zero for none, else one more than the number.
#[derive(Clone, Copy)]
pub(crate) struct Link {
    code: u32,
}

impl Model for Link {
    ghost use Rattle.std.specs.Prelude.{ℕ, Option};

    ghost Value = { Option ℕ };

    ghost use Rattle.node_arena.specs.Links.{linked, link_code};

    ghost view = { λ link. linked link.code };

    ghost inverse = { λ number. record { code = link_code number } };
}

impl Link {
    pub(crate) fn none() -> Link
        ensures { result ≡ None }
    {
        Link { code: 0 }
    }

    pub(crate) fn to(number: u32) -> Link
        requires { number + 1 < 2 ^ 32 }
        ensures { result ≡ Some number }
    {
        Link { code: number + 1 }
    }

    pub(crate) fn get(self) -> Option<u32>
        ensures { result ≡ self }
    {
        self.code.checked_sub(1)
    }
}
