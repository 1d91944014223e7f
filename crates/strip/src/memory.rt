//! The memory that a host lends to a strip.
ghost use Rattle.std.specs.Prelude.{◌≡◌, [], length, IsOk, IfOk};
ghost use Rattle.std.specs.Result.{result_and};
ghost use Rattle.strip.specs.Layout.{strip_bytes};
ghost use Rattle.strip.specs.Meaning.{capacity_for, bytes_of, body_of, strip_capacity};

use crate::making::{capacity_of, lay_out};
use crate::strip::Strip;
use model::Refusal;

/// Bytes for a whole number of entries, 1 to 2,000.
#[derive(Drop)]
pub struct StripMemory<'a> {
    pub(crate) bytes: &'a mut [u8],
    ghost fit: { IsOk (capacity_for (length bytes.now)) },
}

impl<'a> StripMemory<'a> {
    /// Bytes for a whole number of entries, 1 to 2,000, left as they are; any others are refused.
    pub fn check(bytes: &'a mut [u8]) -> Result<StripMemory<'a>, Refusal>
        ensures answer { result_and result (Ok (tt {0})) ≡ result_and (capacity_for (length bytes.old)) (Ok (tt {0})) }
        ensures same { IfOk result (λ m. m.bytes.now ≡ bytes.old) }
    {
        capacity_of(bytes.len())?;
        Ok(StripMemory { bytes })
    }

    /// An empty strip over the bytes, which become a header and zeros.
    pub fn strip(self) -> Strip<'a>
        ensures bytes { bytes_of result ≡ strip_bytes (strip_capacity result) [] }
        ensures places { Ok (strip_capacity result) ≡ capacity_for (length self.entry.bytes.now) }
        ensures empty { body_of result ≡ [] }
    {
        let StripMemory { bytes } = self;
        let capacity = lay_out(bytes).unwrap();
        Strip {
            bytes,
            capacity,
            count: 0,
        }
    }
}
