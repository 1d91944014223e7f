//! A node of lent memory.
ghost use Rattle.std.specs.Prelude.{◌≡◌};
ghost use Rattle.chains.specs.Meaning.{free_node};

use model::Record;

/// A place for a record: with one it is on the chain of the record's key, and without one it is free. `next` is the node after it, on that chain or among the free ones.
#[derive(Clone, Copy, Drop)]
pub struct Node<V> {
    pub(crate) record: Option<Record<V>>,
    pub(crate) next: Option<usize>,
}

impl<V: Copy> Node<V> {
    /// A free node.
    pub fn blank() -> Node<V>
        ensures { result ≡ free_node }
    {
        Node {
            record: None,
            next: None,
        }
    }
}
