//! Reading and writing one bit of a byte.

ghost use Rattle.std.specs.Prelude.{◌≡◌, ℕ, ◌-◌, ◌%◌, ◌<◌, if◌then◌else◌, ◌==◌, bit_and, bit_or, nat_eq};
ghost use Rattle.bits.specs.Bits.{bit, with_bit};

/// Whether a bit is 1; a byte has no bits from 8 on.
#[tactic(auto, unfolding(crate::specs::Bits::bit))]
pub fn has_bit(byte: u8, place: u8) -> bool
    ensures { result ≡ bit byte place }
{
    place < 8 && (byte >> place) % 2 == 1
}

/// The byte with one bit made 1 or 0, and every other bit as it was.
#[tactic(auto, using(crate::proofs::BitsAfter::mask_on, crate::proofs::BitsAfter::mask_off, crate::proofs::BitsAfter::past_bits, crate::proofs::BitsAfter::bit_after))]
pub fn with_bit(byte: u8, place: u8, on: bool) -> u8
    ensures value { result ≡ with_bit byte place on }
    ensures bits { (k : ℕ) → k < 8 → bit result k ≡ (if nat_eq k place then on else bit byte k) }
{
    if place < 8 {
        let weight = 1u8 << place;
        if on { byte | weight } else { byte & !weight }
    } else {
        byte
    }
}
