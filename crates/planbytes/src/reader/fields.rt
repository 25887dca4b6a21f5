//! The fields of a record, each there or not.

ghost use Rattle.std.specs.Range.{range_inclusive_start, range_inclusive_end};
ghost use Rattle.planbytes.specs.Bytes.{Read, byte_in};
ghost use Rattle.planbytes.specs.Fields.{read_if, join_at, numbers_at};
ghost use Rattle.planbytes.specs.Took.{Took};

use crate::reader::Reader;
use bounded::bounded::Bounded;
use faults::fault::Fault;
use layout::element::Join;
use std::ops::RangeInclusive;

/// A field of a record: what it holds, and how its bytes are read.
pub(crate) trait Field: Drop {
    type Value;

    ghost read_at: { Self → Read Self.Value };

    /// Reads what the field holds.
    fn read(self, reader: &mut Reader) -> Result<Self::Value, Fault>
        ensures { Took reader.old reader.new result (read_at self) };
}

/// A byte that has a range.
impl Field for RangeInclusive<u8> {
    type Value = u8;

    ghost read_at = { λ range. byte_in (range_inclusive_start range) (range_inclusive_end range) };

    fn read(self, reader: &mut Reader) -> Result<u8, Fault> {
        reader.byte_in(self)
    }
}

/// A join: an element number, then a port.
#[derive(Clone, Copy)]
pub(crate) struct JoinField;

impl Field for JoinField {
    type Value = Join;

    ghost read_at = { λ _. join_at };

    fn read(self, reader: &mut Reader) -> Result<Join, Fault> {
        let element = reader.byte()?;
        let port = reader.byte_in(0..=2)?;
        Ok(Join { element, port })
    }
}

/// A list of element numbers: a count that has a range, then as many bytes.
#[derive(Drop)]
pub(crate) struct ListField<const N: usize>(pub(crate) RangeInclusive<u8>);

impl<const N: usize> Field for ListField<N> {
    type Value = Bounded<u8, N>;

    ghost read_at = { λ list. numbers_at (range_inclusive_start list.0) (range_inclusive_end list.0) };

    fn read(self, reader: &mut Reader) -> Result<Bounded<u8, N>, Fault> {
        let count = reader.byte_in(self.0)?;
        reader.numbers(count)
    }
}

impl Reader<'_> {
    /// What a field holds, where the record has it.
    pub(crate) fn read_if<F: Field>(
        &mut self,
        there: bool,
        field: F,
    ) -> Result<Option<F::Value>, Fault>
        ensures { Took self.old self.new result (read_if there (F.read_at field)) }
    {
        if there {
            field.read(self).map(Some)
        } else {
            Ok(None)
        }
    }
}
