//! Route records.

ghost use Rattle.std.specs.Prelude.{◌≡◌, ◌≤◌};
ghost use Rattle.layout.specs.Drawings.{with_route};
ghost use Rattle.planbytes.specs.Fields.{route_at};
ghost use Rattle.planbytes.specs.Records.{list_size, route_size};
ghost use Rattle.planbytes.specs.Order.{route_in_order};

use crate::map::FieldMap;
use crate::reader::Reader;
use crate::reader::fields::ListField;
use crate::reader::recorded::Recorded;
use crate::record::Record;
use faults::fault::Fault;
use layout::route::{Route, RouteClass};

/// How many bytes a list takes whose count stands at a place.
fn list_size(bytes: &[u8], place: usize) -> usize
    ensures value { result ≡ list_size bytes.now place }
    ensures bound { result ≤ 256 }
{
    1 + bytes.get(place).map_or(0, |count| usize::from(*count))
}

impl Recorded for Route {
    ghost size = { route_size };

    ghost read_at = { route_at };

    ghost appended = { with_route };

    ghost in_order = { route_in_order };

    fn size(map: FieldMap, bytes: &[u8]) -> usize {
        let path = 1 + map.width(0, 1);
        let overlap = path + map.width(1, list_size(bytes, path));
        overlap + map.width(2, list_size(bytes, overlap)) + map.width(3, 1)
    }

    fn record<'a>(bytes: &'a [u8], offset: usize) -> Record<'a> {
        Record::Route { bytes, offset }
    }

    fn read(reader: &mut Reader) -> Result<Route, Fault> {
        let map = FieldMap(reader.byte_in(0..=15)?);
        let class = reader.read_if(map.has(0), 1..=1)?;
        let path = reader.read_if(map.has(1), ListField(3..=24))?;
        let overlap = reader.read_if(map.has(2), ListField(1..=8))?;
        let zero = reader.read_if(map.has(3), 1..=1)?;
        Ok(Route {
            class: class.map_or(RouteClass::Shunting, RouteClass::from),
            path,
            overlap,
            zero_overlap: zero.is_some(),
        })
    }
}
