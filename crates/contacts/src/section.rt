//! The bit of one section.

ghost use Rattle.std.specs.Prelude.{◌≡◌};
ghost use Rattle.bits.specs.Bits.{bit, with_bit};
ghost use Rattle.contacts.specs.Picture.{section_byte, section_bit};

use bits::byte::{has_bit, with_bit};

/// The byte that has the bit: behind the bytes of the elements, eight sections to a byte.
pub(crate) fn byte_of_section(section: u8) -> usize
    ensures { result ≡ section_byte section }
{
    96 + section as usize / 8
}

/// Whether that byte has the section occupied; the lowest section has the lowest bit.
pub(crate) fn occupied_in(byte: u8, section: u8) -> bool
    ensures { result ≡ bit byte (section_bit section) }
{
    has_bit(byte, section % 8)
}

/// That byte with the section occupied or free.
pub(crate) fn with_occupation(byte: u8, section: u8, occupied: bool) -> u8
    ensures { result ≡ with_bit byte (section_bit section) occupied }
{
    with_bit(byte, section % 8, occupied)
}
