//! The memory that a host lends to chains.
ghost use Rattle.std.specs.Prelude.{◌≤◌, length};

use crate::chains::Chains;
use crate::node::Node;
use model::Refusal;

/// 1 to 4,096 nodes.
#[derive(Drop)]
pub struct ChainsMemory<'a, V> {
    pub(crate) nodes: &'a mut [Node<V>],
    ghost some: { 1 ≤ length nodes.now },
    ghost limit: { length nodes.now ≤ 4096 },
}

impl<'a, V: Copy> ChainsMemory<'a, V> {
    ghost use Rattle.std.specs.Prelude.{◌≡◌, [], IfOk};
    ghost use Rattle.version_store.specs.Making.{answered, making};
    ghost use Rattle.chains.specs.Meaning.{chained, places};

    /// Memory for 1 to 4,096 records, left as it is; any other is refused.
    pub fn lent(nodes: &'a mut [Node<V>]) -> Result<ChainsMemory<'a, V>, Refusal>
        ensures answer { answered result ≡ making (length nodes.old) }
        ensures holds { IfOk result (λ m. m.nodes.now ≡ nodes.old) }
    {
        if !(1..=4096).contains(&nodes.len()) {
            return Err(Refusal::OutsideLimits);
        }
        Ok(ChainsMemory { nodes })
    }

    /// Chains with no records, over this memory. Every node becomes free.
    pub fn chains(self) -> Chains<'a, V>
        ensures empty { chained result ≡ [] }
        ensures whole { places result ≡ length self.entry.nodes.now }
    {
        let ChainsMemory { nodes } = self;
        let spare = nodes.len();
        let mut free = None;
        for (i, node) in nodes.iter_mut().enumerate() {
            node.record = None;
            node.next = free;
            free = Some(i);
        }
        Chains {
            nodes,
            heads: [None; 64],
            free,
            spare,
        }
    }
}
