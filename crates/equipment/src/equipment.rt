//! A field in whichever of its two forms.

use contacts::picture::ContactPicture;
use tablefield::table::TableField;

/// The outdoor equipment as a table or as a picture of its contacts.
#[derive(Drop)]
pub enum Equipment {
    Table(TableField),
    Contacts(ContactPicture),
}
