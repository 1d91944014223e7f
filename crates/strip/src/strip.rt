//! The strip's type.
ghost use Rattle.std.specs.Prelude.{◌≡◌, ◌≤◌, drop};
ghost use Rattle.strip.specs.Bodies.{Distinct};
ghost use Rattle.strip.specs.Layout.{strip_bytes, read_body};

/// The bytes are the header, the entries in order of placing, no two of one id, and zeros. Capacity and count are those of the header.
#[derive(Drop)]
pub struct Strip<'a> {
    pub(crate) bytes: &'a mut [u8],
    pub(crate) capacity: usize,
    pub(crate) count: usize,
    ghost some: { 1 ≤ capacity },
    ghost limit: { capacity ≤ 2000 },
    ghost within: { count ≤ capacity },
    ghost whole: { bytes.now ≡ strip_bytes capacity (read_body count (drop 16 bytes.now)) },
    ghost distinct: { Distinct (read_body count (drop 16 bytes.now)) },
}
