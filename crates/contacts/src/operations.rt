//! A picture from bytes and its bytes again, and how it answers, takes orders and is told.

ghost use Rattle.std.specs.Prelude.{◌≡◌};
ghost use Rattle.field.specs.Meaning.{device_of, report_of, blocked_of, burning_of, order_of, occupied_of, ordered, told_report, told_block, told_lamp, told_occupation};
ghost use Rattle.contacts.specs.Bytes.{report_put, block_put, lamp_put, byte_ordered};
ghost use Rattle.contacts.specs.Picture.{byte_of, picture_meaning, device_read, report_read, blocked_read, burning_read, order_read, occupied_read, with_byte, with_section};
ghost use Rattle.contacts.specs.Sized.{length-devices, length-sections};

use crate::byte::{BLOCKED, BURNING, CONTACTS, device_in, ordered_byte, with_position};
use crate::picture::ContactPicture;
use crate::section::{byte_of_section, occupied_in, with_occupation};
use bits::byte::with_bit;
use field::device::{Device, unknown_device};
use field::field::Field;
use layout::position::Position;

/// The picture with these bytes.
impl From<[u8; 104]> for ContactPicture {
    ghost from_gives = { λ bytes picture. picture.bytes ≡ bytes };

    fn from(bytes: [u8; 104]) -> ContactPicture {
        ContactPicture { bytes }
    }
}

impl ContactPicture {
    /// The bytes of the picture.
    pub fn bytes(&self) -> &[u8]
        ensures { result.now ≡ self.now.bytes }
    {
        &self.bytes
    }

    /// A second picture with the same bytes.
    pub fn duplicate(&self) -> ContactPicture
        ensures { result.bytes ≡ self.now.bytes }
    {
        ContactPicture { bytes: self.bytes }
    }

    /// The device that the byte of an element says; the unknown one where there is none.
    #[tactic(auto, using(crate::proofs::Pictures::device_at, crate::proofs::Pictures::front_length, crate::proofs::Pictures::front_at))]
    fn device(&self, element: u8) -> Device
        ensures meaning { result ≡ device_of (picture_meaning self.now) element }
        ensures bits { result ≡ device_read self.now.bytes element }
    {
        self.bytes[..96]
            .get(element as usize)
            .map_or(unknown_device(), |byte| device_in(*byte))
    }

    /// Changes the byte of an element, if there is one.
    fn change<F: FnOnce(u8) -> u8>(&mut self, element: u8, change: F)
        requires { F.IsAlwaysCallable change }
        ensures { (byte : _) × F.post change (byte_of self.old.bytes element) byte × (self.new.bytes ≡ with_byte self.old.bytes element (λ _. byte)) }
    {
        let place = element as usize;
        let byte = change(self.bytes.get(place).copied().unwrap_or(0));
        if element < 96 {
            self.bytes[place] = byte;
        }
    }
}

impl Field for ContactPicture {
    ghost meaning = { picture_meaning };

    ghost sized = { λ f. (length-devices f.bytes, length-sections f.bytes) };

    fn report(&self, element: u8) -> Option<Position>
        ensures meaning { result ≡ report_of (picture_meaning self.now) element }
        ensures bits { result ≡ report_read self.now.bytes element }
    {
        self.device(element).report
    }

    fn is_blocked(&self, element: u8) -> bool
        ensures meaning { result ≡ blocked_of (picture_meaning self.now) element }
        ensures bits { result ≡ blocked_read self.now.bytes element }
    {
        self.device(element).blocked
    }

    fn is_burning(&self, element: u8) -> bool
        ensures meaning { result ≡ burning_of (picture_meaning self.now) element }
        ensures bits { result ≡ burning_read self.now.bytes element }
    {
        self.device(element).burning
    }

    fn standing_order(&self, element: u8) -> Option<Position>
        ensures meaning { result ≡ order_of (picture_meaning self.now) element }
        ensures bits { result ≡ order_read self.now.bytes element }
    {
        self.device(element).order
    }

    #[tactic(auto, using(crate::proofs::Pictures::section_at, crate::proofs::Pictures::behind_all))]
    fn is_occupied(&self, section: u8) -> bool
        ensures meaning { result ≡ occupied_of (picture_meaning self.now) section }
        ensures bits { result ≡ occupied_read self.now.bytes section }
    {
        self.bytes
            .get(byte_of_section(section))
            .is_none_or(|byte| occupied_in(*byte, section))
    }

    #[tactic(auto, using(crate::proofs::Pictures::order_written))]
    fn order(&mut self, element: u8, position: Position)
        ensures meaning { picture_meaning self.new ≡ ordered (picture_meaning self.old) element position }
        ensures bytes { self.new.bytes ≡ with_byte self.old.bytes element (λ b. byte_ordered b position) }
    {
        self.change(element, |byte| ordered_byte(byte, position));
    }

    #[tactic(auto, using(crate::proofs::Pictures::report_written))]
    fn tell_report(&mut self, element: u8, report: Option<Position>)
        ensures meaning { picture_meaning self.new ≡ told_report (picture_meaning self.old) element report }
        ensures bytes { self.new.bytes ≡ with_byte self.old.bytes element (λ b. report_put b report) }
    {
        self.change(element, |byte| with_position(byte, CONTACTS, report));
    }

    #[tactic(auto, using(crate::proofs::Pictures::block_written))]
    fn tell_block(&mut self, element: u8, blocked: bool)
        ensures meaning { picture_meaning self.new ≡ told_block (picture_meaning self.old) element blocked }
        ensures bytes { self.new.bytes ≡ with_byte self.old.bytes element (λ b. block_put b blocked) }
    {
        self.change(element, |byte| with_bit(byte, BLOCKED, blocked));
    }

    #[tactic(auto, using(crate::proofs::Pictures::lamp_written))]
    fn tell_lamp(&mut self, element: u8, burning: bool)
        ensures meaning { picture_meaning self.new ≡ told_lamp (picture_meaning self.old) element burning }
        ensures bytes { self.new.bytes ≡ with_byte self.old.bytes element (λ b. lamp_put b burning) }
    {
        self.change(element, |byte| with_bit(byte, BURNING, burning));
    }

    #[tactic(auto, using(crate::proofs::Pictures::section_written))]
    fn tell_occupation(&mut self, section: u8, occupied: bool)
        ensures meaning { picture_meaning self.new ≡ told_occupation (picture_meaning self.old) section occupied }
        ensures bytes { self.new.bytes ≡ with_section self.old.bytes section occupied }
    {
        if section < 64 {
            let place = byte_of_section(section);
            self.bytes[place] = with_occupation(self.bytes[place], section, occupied);
        }
    }
}
