//! What comes after a place of a chain.
ghost use Rattle.std.specs.Prelude.{◌≡◌, ℕ, ◌<◌, length};
ghost use Rattle.chains.specs.Links.{Redirected};

use crate::node::Node;

/// Makes `to` the node after prev, or the first of the chain where there is no prev.
pub(crate) fn redirect<V: Copy>(
    nodes: &mut [Node<V>],
    heads: &mut [Option<usize>; 64],
    chain: usize,
    prev: Option<usize>,
    to: Option<usize>,
)
    requires on { chain < 64 }
    requires inside { (i : ℕ) → prev ≡ Some i → i < length nodes.old }
    ensures { Redirected nodes.old nodes.new heads.old heads.new chain prev to }
{
    match prev {
        Some(at) => nodes[at].next = to,
        None => heads[chain] = to,
    }
}
