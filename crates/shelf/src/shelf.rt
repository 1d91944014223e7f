//! Records in order over lent memory.
ghost use Rattle.std.specs.Prelude.{◌≡◌, ◌<◌, ◌≤◌, true, length, take};
ghost use Rattle.std.specs.List.{All};
ghost use Rattle.version_store.specs.Order.{in_order};
ghost use Rattle.shelf.specs.Index.{Apart, named};

use model::Record;

/// The index names each place once. Its first `len` numbers name the places that hold the records, ascending by key and then version; the others name the free
/// places. The host lends both slices; they stay apart because a put or a drop moves numbers of the index, and never whole records.
#[derive(Drop)]
pub struct Shelf<'a, V> {
    pub(crate) records: &'a mut [Record<V>],
    pub(crate) index: &'a mut [u16],
    pub(crate) len: usize,
    ghost as_long: { length index.now ≡ length records.now },
    ghost inside: { All (λ place. place < length records.now) index.now },
    ghost apart: { Apart index.now },
    ghost sorted: { in_order (named records.now (take len index.now)) ≡ true },
    ghost counted: { length (named records.now (take len index.now)) ≡ len },
    ghost within: { length (named records.now (take len index.now)) ≤ length records.now },
}
