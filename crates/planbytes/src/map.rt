//! The map of a record: which fields the record has.

ghost use Rattle.std.specs.Prelude.{◌≡◌, ◌≤◌};
ghost use Rattle.bits.specs.Bits.{bit};
ghost use Rattle.planbytes.specs.Records.{width};

use bits::byte::has_bit;

/// A bit for each field, counted from the lowest, bit 0; it stands where the record has the field.
#[derive(Clone, Copy)]
pub(crate) struct FieldMap(pub(crate) u8);

impl FieldMap {
    /// Whether the record has the field of a bit.
    pub(crate) fn has(self, place: u8) -> bool
        ensures { result ≡ bit self.0 place }
    {
        has_bit(self.0, place)
    }

    /// How many bytes the field of a bit takes, which takes `size` where the record has it.
    pub(crate) fn width(self, place: u8, size: usize) -> usize
        ensures value { result ≡ width self.0 place size }
        ensures bound { result ≤ size }
    {
        if self.has(place) { size } else { 0 }
    }
}
