//! A field from a fresh table or from the bytes of a contact picture, and how it answers, takes orders and is told.

ghost use Rattle.std.specs.Prelude.{◌≡◌, true, false, Some, is_some, option_map, IfSome};
ghost use Rattle.field.specs.Meaning.{fresh_meaning, ordered, told_report, told_block, told_lamp, told_occupation};
ghost use Rattle.contacts.specs.Bytes.{report_put, block_put, lamp_put, byte_ordered};
ghost use Rattle.contacts.specs.Picture.{bytes_mean, with_byte, with_section};
ghost use Rattle.equipment.specs.Equipment.{equipment_meaning, has_contacts, picture_bytes};
ghost use Rattle.equipment.specs.Sized.{sized};

use crate::equipment::Equipment;
use contacts::picture::ContactPicture;
use field::field::Field;
use layout::position::Position;
use tablefield::table::TableField;

impl Equipment {
    /// A fresh table.
    pub fn table() -> Equipment
        ensures meaning { equipment_meaning result ≡ fresh_meaning }
        ensures form { has_contacts result ≡ false }
    {
        Equipment::Table(TableField::fresh())
    }

    /// A contact picture with these bytes.
    pub fn contacts(bytes: [u8; 104]) -> Equipment
        ensures meaning { equipment_meaning result ≡ bytes_mean bytes }
        ensures form { has_contacts result ≡ true }
        ensures bytes { picture_bytes result ≡ Some bytes }
    {
        Equipment::Contacts(ContactPicture::from(bytes))
    }

    /// A second field with the same form and content.
    pub fn duplicate(&self) -> Equipment
        ensures meaning { equipment_meaning result ≡ equipment_meaning self.now }
        ensures form { has_contacts result ≡ has_contacts self.now }
        ensures bytes { picture_bytes result ≡ picture_bytes self.now }
    {
        match self {
            Equipment::Table(table) => Equipment::Table(table.duplicate()),
            Equipment::Contacts(picture) => Equipment::Contacts(picture.duplicate()),
        }
    }

    /// The bytes of the contact picture, if the field is one.
    pub fn contact_bytes(&self) -> Option<&[u8]>
        ensures form { is_some result ≡ has_contacts self.now }
        ensures bytes { IfSome result (λ bytes. picture_bytes self.now ≡ Some bytes.now) }
    {
        match self {
            Equipment::Table(_) => None,
            Equipment::Contacts(picture) => Some(picture.bytes()),
        }
    }
}

impl Field for Equipment {
    ghost meaning = { equipment_meaning };

    ghost sized = { sized };

    fn report(&self, element: u8) -> Option<Position> {
        match self {
            Equipment::Table(table) => table.report(element),
            Equipment::Contacts(picture) => picture.report(element),
        }
    }

    fn is_blocked(&self, element: u8) -> bool {
        match self {
            Equipment::Table(table) => table.is_blocked(element),
            Equipment::Contacts(picture) => picture.is_blocked(element),
        }
    }

    fn is_burning(&self, element: u8) -> bool {
        match self {
            Equipment::Table(table) => table.is_burning(element),
            Equipment::Contacts(picture) => picture.is_burning(element),
        }
    }

    fn standing_order(&self, element: u8) -> Option<Position> {
        match self {
            Equipment::Table(table) => table.standing_order(element),
            Equipment::Contacts(picture) => picture.standing_order(element),
        }
    }

    fn is_occupied(&self, section: u8) -> bool {
        match self {
            Equipment::Table(table) => table.is_occupied(section),
            Equipment::Contacts(picture) => picture.is_occupied(section),
        }
    }

    fn order(&mut self, element: u8, position: Position)
        ensures meaning { equipment_meaning self.new ≡ ordered (equipment_meaning self.old) element position }
        ensures form { has_contacts self.new ≡ has_contacts self.old }
        ensures bytes { picture_bytes self.new ≡ option_map (λ bytes. with_byte bytes element (λ byte. byte_ordered byte position)) (picture_bytes self.old) }
    {
        match self {
            Equipment::Table(table) => table.order(element, position),
            Equipment::Contacts(picture) => picture.order(element, position),
        }
    }

    fn tell_report(&mut self, element: u8, report: Option<Position>)
        ensures meaning { equipment_meaning self.new ≡ told_report (equipment_meaning self.old) element report }
        ensures form { has_contacts self.new ≡ has_contacts self.old }
        ensures bytes { picture_bytes self.new ≡ option_map (λ bytes. with_byte bytes element (λ byte. report_put byte report)) (picture_bytes self.old) }
    {
        match self {
            Equipment::Table(table) => table.tell_report(element, report),
            Equipment::Contacts(picture) => picture.tell_report(element, report),
        }
    }

    fn tell_block(&mut self, element: u8, blocked: bool)
        ensures meaning { equipment_meaning self.new ≡ told_block (equipment_meaning self.old) element blocked }
        ensures form { has_contacts self.new ≡ has_contacts self.old }
        ensures bytes { picture_bytes self.new ≡ option_map (λ bytes. with_byte bytes element (λ byte. block_put byte blocked)) (picture_bytes self.old) }
    {
        match self {
            Equipment::Table(table) => table.tell_block(element, blocked),
            Equipment::Contacts(picture) => picture.tell_block(element, blocked),
        }
    }

    fn tell_lamp(&mut self, element: u8, burning: bool)
        ensures meaning { equipment_meaning self.new ≡ told_lamp (equipment_meaning self.old) element burning }
        ensures form { has_contacts self.new ≡ has_contacts self.old }
        ensures bytes { picture_bytes self.new ≡ option_map (λ bytes. with_byte bytes element (λ byte. lamp_put byte burning)) (picture_bytes self.old) }
    {
        match self {
            Equipment::Table(table) => table.tell_lamp(element, burning),
            Equipment::Contacts(picture) => picture.tell_lamp(element, burning),
        }
    }

    fn tell_occupation(&mut self, section: u8, occupied: bool)
        ensures meaning { equipment_meaning self.new ≡ told_occupation (equipment_meaning self.old) section occupied }
        ensures form { has_contacts self.new ≡ has_contacts self.old }
        ensures bytes { picture_bytes self.new ≡ option_map (λ bytes. with_section bytes section occupied) (picture_bytes self.old) }
    {
        match self {
            Equipment::Table(table) => table.tell_occupation(section, occupied),
            Equipment::Contacts(picture) => picture.tell_occupation(section, occupied),
        }
    }
}
