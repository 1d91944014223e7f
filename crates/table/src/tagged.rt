//! What can be an entry of a table.
ghost use Rattle.std.specs.Prelude.{◌≡◌, ℕ};

/// A kind of entry: it tells its tag, by which a table orders entries, and the value that stands under the tag.
pub trait Tagged: Copy {
    type Value: Copy;

    ghost tag: { Self → ℕ };

    ghost value: { Self → Self.Value };

    fn tag(&self) -> u64
        ensures { result ≡ tag self.now };

    fn value(&self) -> Self::Value
        ensures { result ≡ value self.now };
}

/// An entry that is a tag and a value.
#[derive(Clone, Copy, PartialEq, Eq, Debug, Drop)]
pub struct Entry<V> {
    pub tag: u64,
    pub value: V,
}

impl<V: Copy> Tagged for Entry<V> {
    type Value = V;

    ghost tag = { λ e. e.tag };

    ghost value = { λ e. e.value };

    fn tag(&self) -> u64 {
        self.tag
    }

    fn value(&self) -> V {
        self.value
    }
}
