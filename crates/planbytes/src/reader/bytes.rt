//! Single bytes: the next one, one of a range, and none left.

ghost use Rattle.std.specs.Prelude.{◌≡◌, ◌+◌, ◌^◌, ◌<◌, length};
ghost use Rattle.std.specs.Range.{range_inclusive_start, range_inclusive_end};
ghost use Rattle.std.specs.Result.{result_err};
ghost use Rattle.planbytes.specs.Bytes.{byte_at, byte_in, left_over};
ghost use Rattle.planbytes.specs.Took.{left, Took};

use crate::reader::Reader;
use faults::fault::{Cause, Fault};
use std::ops::RangeInclusive;

impl<'a> Reader<'a> {
    /// A reader at the start of bytes, which stand at a position of the offered ones.
    pub(crate) fn over(bytes: &'a [u8], position: usize) -> Reader<'a>
        requires { position + length bytes.now < 2 ^ 64 }
        ensures { left result ≡ (bytes.now, position) }
    {
        Reader { bytes, position }
    }

    /// The next byte.
    pub(crate) fn byte(&mut self) -> Result<u8, Fault>
        ensures { Took self.old self.new result byte_at }
    {
        let (byte, rest) = self.bytes.split_first().ok_or(Fault {
            cause: Cause::Ended,
            place: self.position,
        })?;
        *self = Reader {
            bytes: rest,
            position: self.position + 1,
        };
        Ok(*byte)
    }

    /// The next byte, which has a range.
    pub(crate) fn byte_in(&mut self, range: RangeInclusive<u8>) -> Result<u8, Fault>
        ensures { Took self.old self.new result (byte_in (range_inclusive_start range) (range_inclusive_end range)) }
    {
        let place = self.position;
        let byte = self.byte()?;
        // `contains` leaves out the end of a range that was iterated.
        if *range.start() <= byte && byte <= *range.end() {
            Ok(byte)
        } else {
            Err(Fault {
                cause: Cause::OutOfRange,
                place,
            })
        }
    }

    /// All bytes are taken.
    pub(crate) fn end(&self) -> Result<(), Fault>
        ensures { result_err result ≡ left_over (left self.now) }
    {
        if self.bytes.is_empty() {
            return Ok(());
        }
        Err(Fault {
            cause: Cause::LeftOver,
            place: self.position,
        })
    }
}
