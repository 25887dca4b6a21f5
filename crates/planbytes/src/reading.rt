//! A whole plan file: two counts, the element records, the route records, and nothing more.

ghost use Rattle.std.specs.Prelude.{◌≡◌};
ghost use Rattle.planbytes.specs.Files.{drawn_by};

use crate::reader::Reader;
use faults::fault::Fault;
use layout::drawing::Drawing;
use layout::element::Element;
use layout::route::Route;

/// The drawing that the offered bytes say, or the first fault in the order of the bytes.
#[tactic(auto, using(crate::proofs::Drawn::drawn_elements, crate::proofs::Drawn::drawn_routes))]
pub fn drawn(bytes: &[u8]) -> Result<Drawing, Fault>
    ensures { result ≡ drawn_by bytes.now }
{
    let mut reader = Reader::over(bytes, 0);
    let element_count = reader.byte_in(1..=96)?;
    let route_count = reader.byte_in(0..=64)?;
    let mut drawing = Drawing::blank();
    reader.add_records::<Element>(element_count, &mut drawing)?;
    reader.add_records::<Route>(route_count, &mut drawing)?;
    reader.end()?;
    Ok(drawing)
}
