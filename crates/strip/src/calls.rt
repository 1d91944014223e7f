//! The strip as a commit table. Each call says every byte after it.
ghost use Rattle.std.specs.Prelude.{◌≡◌, ◌*◌, ◌<◌, length, slice_index_or, is_ok, IfSome};
ghost use Rattle.model.specs.Maps.{is_there, look_up, remove};
ghost use Rattle.commit_table.specs.Placing.{placing, place_in};
ghost use Rattle.strip.specs.Bodies.{place_of, drop_id};
ghost use Rattle.strip.specs.Layout.{IdEntry, body};
ghost use Rattle.strip.specs.Meaning.{bytes_of, body_of, strip_entries, strip_capacity, strip_ordered, strip_within, place_body, bytes_if};

use crate::bytes::{
    ENTRY, HEADER, bytes_of_entry, entry_in, header_bytes, offset_of, place_in, write_at,
};
use crate::strip::Strip;
use commit_table::{CommitTable, NotPlaced};
use model::CommitEntry;

impl Strip<'_> {
    /// Every byte, as it stands.
    pub fn bytes(&self) -> &[u8]
        ensures { result.now ≡ bytes_of self.now }
    {
        self.bytes
    }

    /// The bytes of the entries.
    #[tactic(auto, using(crate::proofs::Strips::length_bytes))]
    fn body(&self) -> &[u8]
        ensures entries { result.now ≡ body (body_of self.now) }
        ensures len { length result.now ≡ 24 * self.now.count }
    {
        &self.bytes[HEADER..offset_of(self.count)]
    }

    /// The place of the id, in order of placing.
    fn find(&self, id: u64) -> Option<usize>
        ensures place { place_of (body_of self.now) id ≡ result }
        ensures within { IfSome result (λ p. p < self.now.count) }
    {
        place_in(self.body(), id)
    }

    /// The entry at a place.
    #[tactic(auto, using(crate::proofs::Strips::length_bytes))]
    fn entry_at(&self, place: usize) -> CommitEntry
        requires { place < self.now.count }
        ensures { (d : IdEntry) → result ≡ (slice_index_or (body_of self.now) place d).1 }
    {
        entry_in(&self.bytes[offset_of(place)..])
    }
}

impl<'a> CommitTable for Strip<'a> {
    ghost entries = { strip_entries };

    ghost capacity = { strip_capacity };

    ghost ordered = { strip_ordered };

    ghost within = { strip_within };

    fn capacity(&self) -> usize {
        self.capacity
    }

    #[tactic(auto, using(crate::specs::Meaning::length_entries))]
    fn count(&self) -> usize {
        self.count // as in the header
    }

    fn look_up(&self, id: u64) -> Option<CommitEntry> {
        let place = self.find(id)?;
        Some(self.entry_at(place))
    }

    /// A new entry stands last in the body.
    fn place(&mut self, id: u64, entry: CommitEntry) -> Result<(), NotPlaced>
        ensures placed { placing result (strip_entries self.new) ≡ place_in (strip_capacity self.old) id entry (strip_entries self.old) }
        ensures kept { strip_capacity self.new ≡ strip_capacity self.old }
        ensures body { body_of self.new ≡ place_body result (id, entry) (body_of self.old) }
        ensures bytes { bytes_of self.new ≡ bytes_if (is_ok result) (strip_capacity self.old) (place_body result (id, entry) (body_of self.old)) (bytes_of self.old) }
    {
        if let Some(standing) = self.look_up(id) {
            return Err(NotPlaced::Stands(standing));
        }
        if self.count == self.capacity {
            return Err(NotPlaced::Full);
        }
        let (capacity, count) = (self.capacity, self.count);
        let bytes = &mut *self.bytes;
        write_at(bytes, offset_of(count), &bytes_of_entry(id, entry));
        write_at(bytes, 0, &header_bytes(capacity, count + 1));
        self.count = count + 1;
        Ok(())
    }

    /// The last entry of the body moves into the gap, and its old place is zeroed.
    #[tactic(auto, using(crate::proofs::Strips::length_bytes))]
    fn drop_entry(&mut self, id: u64) -> bool
        ensures answer { result ≡ is_there (look_up (strip_entries self.old) id) }
        ensures dropped { strip_entries self.new ≡ remove id (strip_entries self.old) }
        ensures kept { strip_capacity self.new ≡ strip_capacity self.old }
        ensures body { body_of self.new ≡ drop_id id (body_of self.old) }
        ensures bytes { bytes_of self.new ≡ bytes_if result (strip_capacity self.old) (drop_id id (body_of self.old)) (bytes_of self.old) }
    {
        let Some(place) = self.find(id) else {
            return false;
        };
        let (capacity, left) = (self.capacity, self.count - 1);
        let last = offset_of(left);
        let bytes = &mut *self.bytes;
        bytes.copy_within(last..last + ENTRY, offset_of(place));
        write_at(bytes, last, &[0; ENTRY]);
        write_at(bytes, 0, &header_bytes(capacity, left));
        self.count = left;
        true
    }
}
