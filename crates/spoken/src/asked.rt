//! What is asked of a closed station, or at any time.

use crate::telling::{Ordering, Telling};

/// What a line asks for.
#[derive(Clone, Copy)]
pub enum Asked<'a> {
    /// To read the bytes of a plan, in hexadecimal digits.
    Plan(&'a str),
    Field(Work<'a>),
    See(Look),
}

/// What is done to the field.
#[derive(Clone, Copy)]
pub enum Work<'a> {
    /// To take a fresh table for it.
    Table,
    /// To take a contact picture for it, in hexadecimal digits.
    Contacts(&'a str),
    /// To tell it of an element or a section.
    Tell(Telling),
    /// To order an element.
    Order(Ordering),
}

/// What is shown.
#[derive(Clone, Copy)]
pub enum Look {
    /// What the field answers of an element, or of a section.
    Element(u8),
    Section(u8),
    /// The bytes of the contact picture.
    Contacts,
    /// The flanks of a route.
    Flanks(u8),
    /// Everything.
    All,
}
