//! Laying out bytes for a strip.
ghost use Rattle.std.specs.Prelude.{◌≡◌, length};
ghost use Rattle.strip.specs.Meaning.{capacity_for, made_bytes};

use crate::bytes::{ENTRY, HEADER, MOST_ENTRIES, header_bytes, write_at};
use model::Refusal;

/// How many entries so many bytes have room for.
pub fn capacity_of(length: usize) -> Result<usize, Refusal>
    ensures { result ≡ capacity_for «length» }
{
    let body = length.checked_sub(HEADER).ok_or(Refusal::OutsideLimits)?;
    let capacity = body / ENTRY;
    if body % ENTRY != 0 || !(1..=MOST_ENTRIES).contains(&capacity) {
        return Err(Refusal::OutsideLimits);
    }
    Ok(capacity)
}

/// Makes the bytes an empty strip, a header and zeros; bytes that are not fit stay as they are.
pub fn lay_out(bytes: &mut [u8]) -> Result<usize, Refusal>
    ensures answer { result ≡ capacity_for (length bytes.old) }
    ensures bytes { bytes.new ≡ made_bytes bytes.old (capacity_for (length bytes.old)) }
{
    let capacity = capacity_of(bytes.len())?;
    bytes.fill(0);
    write_at(bytes, 0, &header_bytes(capacity, 0));
    Ok(capacity)
}
