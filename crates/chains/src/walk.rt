//! Where a record is on its chain.
ghost use Rattle.std.specs.Prelude.{◌≡◌, ◌<◌, MatchResult};
ghost use Rattle.std.specs.Ordering.{MatchOrdering};
ghost use Rattle.chains.specs.Links.{Found, Absent, tag};

use crate::chains::Chains;
use model::{Record, class_of};
use std::cmp::Ordering;

/// A node on a chain, and the one before it.
#[derive(Clone, Copy)]
pub(crate) struct Spot {
    pub(crate) prev: Option<usize>,
    pub(crate) at: usize,
}

/// A place between two nodes of a chain, or at an end.
#[derive(Clone, Copy)]
pub(crate) struct Gap {
    pub(crate) prev: Option<usize>,
    pub(crate) next: Option<usize>,
}

/// How the record stands to that key and version: by version, and then by key. The greater come first on a chain.
fn order<V: Copy>(item: Record<V>, key: u64, version: u64) -> Ordering
    ensures { MatchOrdering result (tag item.key item.version < tag key version) ((item.key ≡ key) × (item.version ≡ version)) (tag key version < tag item.key item.version) }
{
    if item.version == version {
        item.key.cmp(&key)
    } else {
        item.version.cmp(&version)
    }
}

impl<'a, V: Copy> Chains<'a, V> {
    /// Where that key and version stands on its chain, or where it would go.
    pub(crate) fn find(&self, key: u64, version: u64) -> Result<Spot, Gap>
        ensures { MatchResult result (λ s. Found self.now.nodes.now self.now.heads key version s.prev s.at) (λ g. Absent self.now.nodes.now self.now.heads key version g.prev g.next) }
    {
        let nodes = &*self.nodes;
        let mut prev = None;
        let mut next = self.heads[class_of(key)];
        while let Some(at) = next {
            let node = &nodes[at];
            match order(node.record.unwrap(), key, version) {
                Ordering::Greater => {
                    prev = next;
                    next = node.next;
                }
                Ordering::Equal => return Ok(Spot { prev, at }),
                Ordering::Less => return Err(Gap { prev, next }),
            }
        }
        Err(Gap { prev, next })
    }
}
