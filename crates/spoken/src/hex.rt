//! Bytes written in hexadecimal digits.

ghost use Rattle.std.specs.Prelude.{◌≡◌, ◌≢◌, ◌<◌, IfOk, Ok, Err, MatchResult};
ghost use Rattle.std.specs.Vec.{vec_items};
ghost use Rattle.spoken.specs.Digits.{hex_fault_text, is_gap, digit_in, byte_in, bytes_in, picture_in};
ghost use Rattle.spoken.specs.declared.hex.HexFault.TheVariants.{OutOfMemory};

use std::alloc::{AllocError, AllocFailed, Global};
use std::error::Error;
use std::fmt;

/// Why a text spells no bytes, or not those of a contact picture.
#[derive(Clone, Copy, Debug, PartialEq, Eq)]
pub enum HexFault {
    /// A sign that is no digit, blank or bar.
    NoDigit,
    /// A byte with one digit.
    HalfByte,
    /// A contact picture with another number of bytes.
    NoPicture,
    OutOfMemory,
}

impl fmt::Display for HexFault {
    ghost output = { hex_fault_text };

    fn fmt<W: fmt::Write>(&self, f: &mut fmt::Formatter<W>) -> fmt::Result {
        match self {
            HexFault::NoDigit => f.write_str(
                "a byte is written in hexadecimal digits, and between bytes stand only blanks and bars",
            ),
            HexFault::HalfByte => f.write_str("a byte has two digits"),
            HexFault::NoPicture => f.write_str("a contact picture has 104 bytes"),
            HexFault::OutOfMemory => write!(f, "{AllocError}"),
        }
    }
}

impl Error for HexFault {}

impl From<AllocError> for HexFault {
    ghost from_gives = { λ _ fault. fault ≡ OutOfMemory };

    fn from(_error: AllocError) -> HexFault {
        HexFault::OutOfMemory
    }
}

impl<T: Drop> From<AllocFailed<T>> for HexFault {
    ghost from_gives = { λ _ fault. fault ≡ OutOfMemory };

    fn from(_error: AllocFailed<T>) -> HexFault {
        HexFault::OutOfMemory
    }
}

/// What may stand between bytes.
#[tactic(auto, unfolding(crate::specs::Digits::is_gap))]
fn is_gap(sign: u8) -> bool
    ensures { result ≡ is_gap sign }
{
    matches!(sign, b' ' | b'\t' | b'|')
}

fn digit(sign: u8) -> Result<u8, HexFault>
    ensures bound { IfOk result (λ digit. digit < 16) }
    ensures digit { result ≡ digit_in sign }
{
    let digit = char::from(sign).to_digit(16).ok_or(HexFault::NoDigit)?;
    Ok(digit as u8)
}

/// The byte that two digits spell.
fn byte(digits: &[u8]) -> Result<u8, HexFault>
    ensures { result ≡ byte_in digits.now }
{
    match digits {
        [high, low, ..] => Ok(digit(*high)? * 16 + digit(*low)?),
        [lone] => digit(*lone).and(Err(HexFault::HalfByte)),
        [] => Err(HexFault::HalfByte),
    }
}

/// The bytes that a text spells, with blanks, tabs or bars between them.
pub fn bytes_of(heap: Global, text: &str) -> Result<Vec<u8>, HexFault>
    ensures { MatchResult result (λ bytes. bytes_in text.now ≡ Ok (vec_items bytes)) (λ fault. fault ≢ OutOfMemory → bytes_in text.now ≡ Err fault) }
{
    let mut bytes = Vec::new(heap);
    let words = text.as_bytes().split(|sign| is_gap(*sign));
    for digits in words.flat_map(|word| word.chunks(2)) {
        bytes.push(byte(digits)?)?;
    }
    Ok(bytes)
}

/// The bytes of a contact picture that a text spells.
pub fn picture_of(heap: Global, text: &str) -> Result<[u8; 104], HexFault>
    ensures { MatchResult result (λ picture. picture_in text.now ≡ Ok picture) (λ fault. fault ≢ OutOfMemory → picture_in text.now ≡ Err fault) }
{
    let bytes = bytes_of(heap, text)?;
    <[u8; 104]>::try_from(bytes.as_slice()).map_err(|_| HexFault::NoPicture)
}

#[cfg(test)]
mod tests {
    use super::*;
    use std::test::Fail;

    #[test]
    fn digits_spell_bytes(rt: HostRuntime) -> Result<(), Fail> {
        let bytes = bytes_of(rt.alloc(), "08 0a|FF\t7").err();
        assert_eq!(rt; bytes, Some(HexFault::HalfByte));
        let bytes = bytes_of(rt.alloc(), " 08 0a|FF\t70 ")?;
        assert_eq!(rt; bytes.as_slice(), [0x08, 0x0A, 0xFF, 0x70].as_slice());
        Ok(())
    }

    #[test]
    fn a_picture_has_all_its_bytes(rt: HostRuntime) -> Result<(), Fail> {
        let mut digits = "2A".repeat(rt.alloc(), 104)?;
        assert_eq!(rt; picture_of(rt.alloc(), digits.as_str())?, [0x2A; 104]);
        digits.push_str("2A")?;
        let longer = picture_of(rt.alloc(), digits.as_str()).err();
        assert_eq!(rt; longer, Some(HexFault::NoPicture));
        Ok(())
    }
}
