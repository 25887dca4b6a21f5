//! The table of a field.

ghost use Rattle.std.specs.Prelude.{◌≡◌, length};

use field::device::Device;

/// A device for each of 96 elements, and whether each of 64 sections is occupied.
#[derive(Drop)]
pub struct TableField {
    pub(crate) devices: [Device; 96],
    pub(crate) sections: [bool; 64],
    ghost sized: { (length devices ≡ 96) × (length sections ≡ 64) },
}
