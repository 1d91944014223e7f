//! The calls of chains.
ghost use Rattle.chains.specs.Meaning.{chained, places};
ghost use Rattle.chains.specs.Canonical.{canon_ascends, canon_within};

use crate::chains::Chains;
use crate::relink::redirect;
use model::{Full, Record, class_of};
use version_store::VersionStore;

impl<'a, V: Copy> VersionStore for Chains<'a, V> {
    type Value = V;

    ghost records = { λ s. chained s };

    ghost capacity = { λ s. places s };

    ghost ordered = { λ s. canon_ascends s.nodes.now };

    ghost within = { λ s. canon_within s.nodes.now };

    fn capacity(&self) -> usize {
        self.nodes.len()
    }

    fn count(&self) -> usize {
        self.capacity() - self.spare
    }

    fn newest(&self, key: u64, bound: u64) -> Option<Record<V>> {
        let nodes = &*self.nodes;
        let mut next = self.heads[class_of(key)];
        while let Some(at) = next {
            let node = &nodes[at];
            if node
                .record
                .is_some_and(|item| item.key == key && item.version <= bound)
            {
                return node.record;
            }
            next = node.next;
        }
        None
    }

    fn put(&mut self, item: &Record<V>) -> Result<(), Full> {
        match self.find(item.key, item.version) {
            Ok(spot) => {
                self.nodes[spot.at].record = Some(*item);
                Ok(())
            }
            Err(gap) => {
                let Some(at) = self.free else {
                    return Err(Full {});
                };
                // the first free node goes into the gap
                let nodes = &mut *self.nodes;
                let node = &mut nodes[at];
                self.free = node.next;
                node.record = Some(*item);
                node.next = gap.next;
                let chain = class_of(item.key);
                redirect(nodes, &mut self.heads, chain, gap.prev, Some(at));
                self.spare -= 1;
                Ok(())
            }
        }
    }

    fn mark(&mut self, key: u64, version: u64, number: u64) -> bool {
        match self.find(key, version) {
            Ok(spot) => {
                let nodes = &mut *self.nodes;
                let Some(record) = &mut nodes[spot.at].record else {
                    unreachable!()
                };
                record.number = Some(number);
                true
            }
            Err(_) => false,
        }
    }

    fn drop_record(&mut self, key: u64, version: u64) -> bool {
        match self.find(key, version) {
            Ok(spot) => {
                // the node leaves its chain, and becomes the first free one
                let nodes = &mut *self.nodes;
                let next = nodes[spot.at].next;
                redirect(nodes, &mut self.heads, class_of(key), spot.prev, next);
                let node = &mut nodes[spot.at];
                node.record = None;
                node.next = self.free;
                self.free = Some(spot.at);
                self.spare += 1;
                true
            }
            Err(_) => false,
        }
    }
}
