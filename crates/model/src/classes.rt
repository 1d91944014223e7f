//! The classes of keys.
ghost use Rattle.std.specs.Prelude.{◌≡◌, ◌%◌};

/// How many classes there are.
pub const CLASSES: usize = 64;

/// The class of a key is the key modulo 64.
pub fn class_of(key: u64) -> usize
    ensures { result ≡ key % 64 }
{
    (key % CLASSES as u64) as usize
}
