//! The keys that a transaction wrote.
ghost use Rattle.std.specs.Prelude.{◌≡◌, [], ◌≤◌};

use crate::words::Full;

/// The most keys that a transaction holds.
pub const MOST_KEYS: usize = 16;

/// Up to 16 keys in order of first write: the first `len` of `places`.
#[derive(Clone, Copy, Drop)]
pub struct Keys {
    places: [u64; MOST_KEYS],
    len: usize,
    ghost within: { len ≤ 16 },
}

impl Keys {
    ghost use Rattle.std.specs.Prelude.{take};
    ghost use Rattle.model.specs.KeyLists.{keys_in, adding, add_in};

    /// No keys.
    pub fn new() -> Keys
        ensures { keys_in result ≡ [] }
    {
        Keys {
            places: [0; MOST_KEYS],
            len: 0,
        }
    }

    /// The first so many of the places, or all.
    pub fn of(places: [u64; MOST_KEYS], held: usize) -> Keys
        ensures { keys_in result ≡ take held places }
    {
        Keys {
            places,
            len: held.min(MOST_KEYS),
        }
    }

    /// The keys, in order of first write.
    pub fn as_slice(&self) -> &[u64]
        ensures { result.now ≡ keys_in self.now }
    {
        &self.places[..self.len]
    }

    /// Adds the key at the end, unless it is there; full exactly for a new key beside 16 others, and then nothing changes.
    pub fn add(&mut self, key: u64) -> Result<(), Full>
        ensures { adding result (keys_in self.new) ≡ add_in key (keys_in self.old) }
    {
        if self.as_slice().contains(&key) {
            return Ok(());
        }
        if self.len == MOST_KEYS {
            return Err(Full {});
        }
        self.places[self.len] = key;
        self.len += 1;
        Ok(())
    }
}
