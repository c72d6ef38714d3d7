ghost use Rattle.std.specs.Prelude.{◌≡◌, ◌≤◌, ◌<◌, ◌∷◌, [], ◌-◌, ◌+◌};
ghost use Rattle.json_text.specs.Calls.{opening, closing, fresh};

/// How many arrays and objects may be open at once.
pub const DEEPEST: u32 = 100;

/// What has members, or items.
#[derive(Clone, Copy, PartialEq, Eq)]
pub enum Container {
    /// An object, whose members are named.
    Object,
    /// An array, whose items are not.
    Array,
}

impl Container {
    /// The bracket that begins it.
    pub(crate) fn opening(self) -> &'static [u8]
        ensures { result.now ≡ opening self ∷ [] }
    {
        match self {
            Container::Object => b"{",
            Container::Array => b"[",
        }
    }

    /// The bracket that ends it.
    pub(crate) fn closing(self) -> &'static [u8]
        ensures { result.now ≡ closing self ∷ [] }
    {
        match self {
            Container::Object => b"}",
            Container::Array => b"]",
        }
    }
}

/// Where the next value comes, or the next name.
#[derive(Clone, Copy, PartialEq, Eq)]
pub enum JsonPlace {
    /// Where the text begins, or right behind a member's name.
    Here,
    /// First in an array or object.
    First,
    /// Behind another value.
    Behind,
}

/// How far a pen is.
#[derive(Clone, Copy, PartialEq, Eq)]
pub struct JsonState {
    /// How many arrays and objects are open.
    pub depth: u32,
    /// Where the next value comes.
    pub place: JsonPlace,
}
