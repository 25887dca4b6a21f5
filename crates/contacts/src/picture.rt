//! The bytes of a contact picture.

ghost use Rattle.std.specs.Prelude.{◌≡◌, length};

/// A byte for each of 96 elements, then a bit for each of 64 sections; any bytes will do.
#[derive(Drop)]
pub struct ContactPicture {
    pub(crate) bytes: [u8; 104],
    ghost sized: { length bytes ≡ 104 },
}
