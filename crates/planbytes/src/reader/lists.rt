//! Lists of element numbers.

ghost use Rattle.bounded.specs.Lists.{empty_of};
ghost use Rattle.planbytes.specs.Bytes.{byte_at};
ghost use Rattle.planbytes.specs.Items.{items_at};
ghost use Rattle.planbytes.specs.Took.{Took};

use crate::reader::Reader;
use bounded::bounded::Bounded;
use faults::fault::Fault;

impl Reader<'_> {
    /// As many element numbers as a count says.
    #[tactic(auto, using(crate::proofs::Times::times_more))]
    pub(crate) fn numbers<const N: usize>(&mut self, count: u8) -> Result<Bounded<u8, N>, Fault>
        ensures { Took self.old self.new result (items_at byte_at count (empty_of 0)) }
    {
        let mut numbers = Bounded::empty(0);
        for _ in 0..count {
            numbers.push(self.byte()?);
        }
        Ok(numbers)
    }
}
