//! What a record of a plan file says.

ghost use Rattle.std.specs.Prelude.{◌≡◌, ℕ, List};
ghost use Rattle.layout.specs.declared.drawing.Drawing.{Drawing};
ghost use Rattle.planbytes.specs.Bytes.{Read};
ghost use Rattle.planbytes.specs.Records.{InOrder, Adds, seen};
ghost use Rattle.planbytes.specs.Took.{Took};

use crate::map::FieldMap;
use crate::reader::Reader;
use crate::record::Record;
use faults::fault::Fault;

/// What a record says: the record begins with a map, and has the fields that stand in it.
pub(crate) trait Recorded {
    ghost size: { ℕ → List ℕ → ℕ };

    ghost read_at: { Read Self };

    ghost appended: { Drawing → Self → Drawing };

    /// How many bytes a record takes that has a map and begins with some bytes.
    fn size(map: FieldMap, bytes: &[u8]) -> usize
        ensures { result ≡ size map.0 bytes.now };

    /// The record with these bytes, at an offset, in the case of what it says.
    fn record<'a>(bytes: &'a [u8], offset: usize) -> Record<'a>
        ensures bytes { seen result ≡ (bytes.now, offset) }
        ensures case { Adds appended read_at result };

    /// Reads the map and the fields.
    fn read(reader: &mut Reader) -> Result<Self, Fault>
        ensures { Took reader.old reader.new result read_at };

    // A record read from its own bytes says what the bytes say in their order.
    ghost in_order: { InOrder size read_at };
}
