//! The class numbers.
ghost use Rattle.std.specs.Prelude.{◌≡◌, replicate};
ghost use Rattle.model.specs.Classes.{class_number, raise_class};
ghost use Rattle.versions.specs.Meaning.{numbers_of};

use model::{CLASSES, class_of};

/// A number for each class of keys.
#[derive(Clone, Copy, Drop)]
pub struct ClassNumbers {
    numbers: [u64; CLASSES],
}

impl ClassNumbers {
    /// All numbers 0.
    pub fn new() -> ClassNumbers
        ensures { numbers_of result ≡ replicate 64 0 }
    {
        ClassNumbers {
            numbers: [0; CLASSES],
        }
    }

    /// The number of the key's class.
    pub fn number(&self, key: u64) -> u64
        ensures { result ≡ class_number (numbers_of self.now) key }
    {
        self.numbers[class_of(key)]
    }

    /// Raises the number of the key's class to at least `number`.
    pub fn raise(&mut self, key: u64, number: u64)
        ensures { numbers_of self.new ≡ raise_class key number (numbers_of self.old) }
    {
        let class = class_of(key);
        self.numbers[class] = self.numbers[class].max(number);
    }
}
