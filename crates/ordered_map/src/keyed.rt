ghost use Rattle.std.specs.Prelude.{◌≡◌};

/// What says its own key.
pub trait Keyed<K> {
    ghost key_of: { Self → K };

    fn key(&self) -> K
        ensures { result ≡ key_of self.now };
}
