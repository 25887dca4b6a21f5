//! Parts of a way over elements.

ghost use Rattle.std.specs.Prelude.{◌≡◌};
ghost use Rattle.layout.specs.Ways.{inner};

/// The elements strictly between the first and the last of a way.
pub fn inner(way: &[u8]) -> &[u8]
    ensures { result.now ≡ inner way.now }
{
    match way {
        [_, inner @ .., _] => inner,
        _ => &[],
    }
}
