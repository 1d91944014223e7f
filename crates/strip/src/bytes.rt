//! Entries and headers as bytes.
ghost use Rattle.std.specs.Prelude.{◌≡◌, ◌+◌, ◌*◌, ◌/◌, ◌<◌, ◌≤◌, length, IfSome};
ghost use Rattle.strip.specs.Bodies.{place_of};
ghost use Rattle.strip.specs.Layout.{entry_bytes, header, read_8, read_entry, read_body, write_over};

use model::CommitEntry;

/// How many bytes a header has.
pub const HEADER: usize = 16;

/// How many bytes an entry has.
pub const ENTRY: usize = 24;

/// The most entries that a strip has room for.
pub(crate) const MOST_ENTRIES: usize = 2000;

/// Where in an entry its kind stands, after the id.
const KIND_AT: usize = 8;

/// Where in an entry its number stands, after the kind and seven zeros.
const NUMBER_AT: usize = 16;

/// The kind of an entry that committed.
const COMMITTED: u8 = 1;

/// The kind of an aborted one.
const ABORTED: u8 = 2;

/// Where the entry at a place begins.
pub(crate) fn offset_of(place: usize) -> usize
    requires { place ≤ 2000 }
    ensures { result ≡ 16 + 24 * place }
{
    HEADER + ENTRY * place
}

/// The number in the first eight bytes.
fn number_in(bytes: &[u8]) -> u64
    requires { 8 ≤ length bytes.now }
    ensures { result ≡ read_8 bytes.now }
{
    u64::from_le_bytes(*bytes.first_chunk().unwrap())
}

/// The entry in the first 24 bytes.
pub(crate) fn entry_in(bytes: &[u8]) -> CommitEntry
    requires { 24 ≤ length bytes.now }
    ensures { result ≡ (read_entry bytes.now).1 }
{
    if bytes[KIND_AT] == COMMITTED {
        CommitEntry::Committed(number_in(&bytes[NUMBER_AT..]))
    } else {
        CommitEntry::Aborted
    }
}

/// The place of the id, among the entries of the body: as many entries stand before the rest that begins with it.
pub(crate) fn place_in(body: &[u8], id: u64) -> Option<usize>
    ensures place { place_of (read_body (length body.now / 24) body.now) id ≡ result }
    ensures within { IfSome result (λ p. p < length body.now / 24) }
{
    let mut rest = body;
    while let Some((first, after)) = rest.split_first_chunk::<ENTRY>() {
        if number_in(first) == id {
            return Some((body.len() - rest.len()) / ENTRY);
        }
        rest = after;
    }
    None
}

/// An id, a kind, seven zeros and a number, from which the entry can be read again.
pub(crate) fn bytes_of_entry(id: u64, entry: CommitEntry) -> [u8; ENTRY]
    ensures bytes { result ≡ entry_bytes (id, entry) }
    ensures sound { read_entry result ≡ (id, entry) }
{
    let (kind, number) = match entry {
        CommitEntry::Committed(number) => (COMMITTED, number),
        CommitEntry::Aborted => (ABORTED, 0),
    };
    let mut bytes = [0; ENTRY];
    bytes[..KIND_AT].copy_from_slice(&id.to_le_bytes());
    bytes[KIND_AT] = kind;
    bytes[NUMBER_AT..].copy_from_slice(&number.to_le_bytes());
    bytes
}

/// The header of so many entries with room for so many.
pub(crate) fn header_bytes(capacity: usize, count: usize) -> [u8; HEADER]
    requires within { count ≤ capacity }
    requires limit { capacity ≤ 2000 }
    ensures { result ≡ header capacity count }
{
    let mut bytes = [0; HEADER];
    bytes[..2].copy_from_slice(&(count as u16).to_le_bytes());
    bytes[2..4].copy_from_slice(&(capacity as u16).to_le_bytes());
    bytes[4..8].copy_from_slice(&(HEADER as u32).to_le_bytes());
    bytes[8..12].copy_from_slice(&(offset_of(count) as u32).to_le_bytes());
    bytes
}

/// Writes a part over the bytes, from an offset on.
pub(crate) fn write_at(bytes: &mut [u8], at: usize, part: &[u8])
    requires { at + length part.now ≤ length bytes.old }
    ensures written { bytes.new ≡ write_over at part.now bytes.old }
    ensures len { length bytes.new ≡ length bytes.old }
{
    bytes[at..at + part.len()].copy_from_slice(part);
}
