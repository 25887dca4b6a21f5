//! The same orders and news sent to a table and to a contact picture.

use contacts::picture::ContactPicture;
use field::field::Field;
use layout::position::Position;
use tablefield::table::TableField;
use viewing::alike::alike;

/// Orders and news, at numbers in the ranges and past them.
fn send<F: Field>(field: &mut F, number: u8) {
    field.tell_report(number, Some(Position::Plus));
    field.order(number, Position::Minus);
    field.tell_report(number / 2, Some(Position::Minus));
    field.order(number / 2, Position::Minus);
    field.tell_block(number / 3, number % 2 == 0);
    field.tell_lamp(number / 5, number % 3 == 0);
    field.tell_occupation(number / 7, number % 5 != 0);
    field.tell_occupation(number, number % 4 == 1);
}

/// How many numbers there are at which the two fields answer otherwise.
pub(crate) fn differing() -> usize {
    let mut table = TableField::fresh();
    let mut picture = ContactPicture::from([0; 104]);
    for number in 0..=255u8 {
        send(&mut table, number);
        send(&mut picture, number);
    }
    (0..=255u8)
        .filter(|number| !alike(&table, &picture, *number))
        .count()
}
