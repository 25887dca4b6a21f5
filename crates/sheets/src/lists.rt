//! Short lists of the numbers that a sheet is concerned with.

ghost use Rattle.std.specs.Prelude.{◌≡◌, ℕ, ◌≤◌, slice_index_or};
ghost use Rattle.sheets.specs.Lists.{numbers_where};

use crate::concern::Concern;
use bounded::bounded::Bounded;

/// The numbers of the things with which a route has anything to do, ascending.
#[tactic(auto, using(crate::proofs::NumbersTurn::numbers_none, crate::proofs::NumbersTurn::numbers_more))]
pub(crate) fn numbers_in<T: Concern, const N: usize>(table: &[T; N]) -> Bounded<u8, N>
    requires { N ≤ 256 }
    ensures { result ≡ numbers_where (λ (k : ℕ). T.is_any (slice_index_or table.now k T.nothing)) N }
{
    let mut numbers = Bounded::empty(0);
    for (number, concern) in table.iter().enumerate() {
        if concern.is_any() {
            numbers.push(number as u8);
        }
    }
    numbers
}
