//! Element records.

ghost use Rattle.std.specs.Prelude.{◌≡◌};
ghost use Rattle.layout.specs.Drawings.{with_element};
ghost use Rattle.planbytes.specs.Fields.{element_at};
ghost use Rattle.planbytes.specs.Records.{element_size};
ghost use Rattle.planbytes.specs.Order.{element_in_order};

use crate::map::FieldMap;
use crate::reader::Reader;
use crate::reader::fields::JoinField;
use crate::reader::recorded::Recorded;
use crate::record::Record;
use faults::fault::Fault;
use layout::element::Element;
use layout::kind::{Dual, Kind, Marks, Sort};

impl Recorded for Element {
    ghost size = { λ map _. element_size map };

    ghost read_at = { element_at };

    ghost appended = { with_element };

    ghost in_order = { element_in_order };

    fn size(map: FieldMap, _bytes: &[u8]) -> usize {
        1 + map.width(0, 1)
            + map.width(1, 2)
            + map.width(2, 2)
            + map.width(3, 2)
            + map.width(4, 1)
            + map.width(5, 1)
            + map.width(6, 1)
            + map.width(7, 1)
    }

    fn record<'a>(bytes: &'a [u8], offset: usize) -> Record<'a> {
        Record::Element { bytes, offset }
    }

    fn read(reader: &mut Reader) -> Result<Element, Fault> {
        let map = FieldMap(reader.byte()?);
        let kind = reader.read_if(map.has(0), 1..=4)?;
        let first = reader.read_if(map.has(1), JoinField)?;
        let second = reader.read_if(map.has(2), JoinField)?;
        let third = reader.read_if(map.has(3), JoinField)?;
        let section = reader.read_if(map.has(4), 0..=63)?;
        let dual = reader.read_if(map.has(5), 0..=2)?;
        let sort = reader.read_if(map.has(6), 0..=2)?;
        let marks = reader.read_if(map.has(7), 1..=3)?;
        Ok(Element {
            kind: kind.map_or(Kind::Track, Kind::from),
            joins: [first, second, third],
            section,
            dual: dual.map(Dual::from),
            sort: sort.map(Sort::from),
            marks: marks.map(Marks::from),
        })
    }
}
