//! A reader that steps through bytes.

ghost use Rattle.std.specs.Prelude.{◌+◌, ◌^◌, ◌<◌, length};

pub(crate) mod bytes;
pub(crate) mod elements;
pub(crate) mod fields;
pub(crate) mod lists;
pub(crate) mod recorded;
pub(crate) mod records;
pub(crate) mod routes;

/// Steps through the offered bytes: `bytes` are left of them, and the first of these stands at `position`.
#[derive(Drop)]
pub(crate) struct Reader<'a> {
    bytes: &'a [u8],
    position: usize,
    ghost fits: { position + length bytes.now < 2 ^ 64 },
}
