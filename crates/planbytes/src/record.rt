//! The records of a plan file.

ghost use Rattle.std.specs.Prelude.{◌≡◌, ◌+◌, ◌^◌, ◌<◌, length};
ghost use Rattle.planbytes.specs.Records.{said, added, leaves, Placed};

use crate::reader::Reader;
use crate::reader::recorded::Recorded;
use faults::fault::Fault;
use layout::drawing::Drawing;

/// A record: its bytes, cut short where the offered bytes end too early, and its offset among them.
#[derive(Clone, Copy)]
pub(crate) enum Record<'a> {
    Element { bytes: &'a [u8], offset: usize },
    Route { bytes: &'a [u8], offset: usize },
}

impl Record<'_> {
    /// Puts what the record says at the end of a drawing.
    pub(crate) fn add_to(self, drawing: &mut Drawing) -> Result<(), Fault>
        requires { Placed self }
        ensures { leaves result drawing.new ≡ added drawing.old self.entry }
    {
        match self {
            Record::Element { bytes, offset } => {
                drawing.elements.push(said(bytes, offset)?);
            }
            Record::Route { bytes, offset } => {
                drawing.routes.push(said(bytes, offset)?);
            }
        }
        Ok(())
    }
}

/// What the bytes of a record at an offset say.
fn said<T: Recorded>(bytes: &[u8], offset: usize) -> Result<T, Fault>
    requires { offset + length bytes.now < 2 ^ 64 }
    ensures { result ≡ said T.read_at (bytes.now, offset) }
{
    T::read(&mut Reader::over(bytes, offset))
}
