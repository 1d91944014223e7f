//! Records in 64 chains over lent nodes.
ghost use Rattle.chains.specs.Links.{Sound};

use crate::node::Node;

/// Chains by key modulo 64, newest version first. Nothing allocates below a host, so the nodes are lent, and name each other by index. `heads` has the first node of each chain,
/// `free` is the first of the free nodes, and `spare` says how many they are.
#[derive(Drop)]
pub struct Chains<'a, V> {
    pub(crate) nodes: &'a mut [Node<V>],
    pub(crate) heads: [Option<usize>; 64],
    pub(crate) free: Option<usize>,
    pub(crate) spare: usize,
    ghost sound: { Sound nodes.now heads free spare },
}
