//! The byte of one element.

ghost use Rattle.std.specs.Prelude.{◌≡◌};
ghost use Rattle.bits.specs.Bits.{bit, with_bit};
ghost use Rattle.contacts.specs.Bytes.{report_shown, device_in, plus_contact, minus_contact, byte_ordered};

use bits::byte::{has_bit, with_bit};
use field::device::Device;
use field::orders::report_after_order;
use layout::position::Position;

/// Two bits that show a position: one of them alone shows it, and both or neither show none.
#[derive(Clone, Copy)]
pub(crate) struct PositionBits {
    plus: u8,
    minus: u8,
}

/// The two contacts, which report.
pub(crate) const CONTACTS: PositionBits = PositionBits { plus: 0, minus: 1 };

pub(crate) const BLOCKED: u8 = 2;

pub(crate) const BURNING: u8 = 3;

/// The standing order.
const ORDER: PositionBits = PositionBits { plus: 4, minus: 5 };

/// The position that two bits show.
fn position_in(byte: u8, bits: PositionBits) -> Option<Position>
    ensures { result ≡ report_shown (bit byte bits.plus) (bit byte bits.minus) }
{
    match (has_bit(byte, bits.plus), has_bit(byte, bits.minus)) {
        (true, false) => Some(Position::Plus),
        (false, true) => Some(Position::Minus),
        _ => None,
    }
}

/// What the bits say; the two highest are not read.
pub(crate) fn device_in(byte: u8) -> Device
    ensures { result ≡ device_in byte }
{
    Device {
        report: position_in(byte, CONTACTS),
        blocked: has_bit(byte, BLOCKED),
        burning: has_bit(byte, BURNING),
        order: position_in(byte, ORDER),
    }
}

/// The byte with two bits that show a position; no position is shown by neither.
pub(crate) fn with_position(byte: u8, bits: PositionBits, position: Option<Position>) -> u8
    ensures { result ≡ with_bit (with_bit byte bits.plus (plus_contact position)) bits.minus (minus_contact position) }
{
    let plus_written = with_bit(byte, bits.plus, position == Some(Position::Plus));
    with_bit(plus_written, bits.minus, position == Some(Position::Minus))
}

/// The byte after an order: the contacts are opened unless they report what was ordered.
#[tactic(auto, using(crate::proofs::Decoded::order_shown))]
pub(crate) fn ordered_byte(byte: u8, position: Position) -> u8
    ensures { result ≡ byte_ordered byte position }
{
    let report = report_after_order(position_in(byte, CONTACTS), position);
    let reporting = with_position(byte, CONTACTS, report);
    with_position(reporting, ORDER, Some(position))
}
