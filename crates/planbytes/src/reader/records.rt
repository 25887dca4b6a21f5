//! Stepping over whole records.

ghost use Rattle.std.specs.Prelude.{IfOk};
ghost use Rattle.planbytes.specs.Bytes.{made_of};
ghost use Rattle.planbytes.specs.Records.{record_at, records_at, seen, leaves, Adds, Placed};
ghost use Rattle.planbytes.specs.Took.{Took};

use crate::map::FieldMap;
use crate::reader::Reader;
use crate::reader::recorded::Recorded;
use crate::record::Record;
use faults::fault::Fault;
use layout::drawing::Drawing;

impl<'a> Reader<'a> {
    /// The next record: the bytes that there are of it.
    pub(crate) fn record<T: Recorded>(&mut self) -> Result<Record<'a>, Fault>
        ensures took { Took self.old self.new (made_of seen result) (record_at T.size) }
        ensures placed { IfOk result Placed }
        ensures case { IfOk result (Adds T.appended T.read_at) }
    {
        let (bytes, position) = (self.bytes, self.position);
        let map = FieldMap(self.byte()?);
        let (record, rest) = bytes.split_at(T::size(map, bytes).min(bytes.len()));
        *self = Reader {
            bytes: rest,
            position: position + record.len(),
        };
        Ok(T::record(record, position))
    }

    /// Puts what as many records as a count say at the end of a drawing.
    #[tactic(auto, using(crate::proofs::Times::times_more))]
    pub(crate) fn add_records<T: Recorded>(
        &mut self,
        count: u8,
        drawing: &mut Drawing,
    ) -> Result<(), Fault>
        ensures { Took self.old self.new (leaves result drawing.new) (records_at T.appended T.read_at count drawing.old) }
    {
        for _ in 0..count {
            self.record::<T>()?.add_to(drawing)?;
        }
        Ok(())
    }
}
