//! Routes over a drawn station.

ghost use Rattle.std.specs.Prelude.{◌≡◌};
ghost use Rattle.layout.specs.Numbers.{class_of};
ghost use Rattle.layout.specs.Uses.{numbers, path_of, overlap_of};

use bounded::bounded::Bounded;

/// What a route is for.
#[derive(Clone, Copy, PartialEq, Eq, Default)]
pub enum RouteClass {
    #[default]
    Shunting,
    Train,
}

/// The class with a number; the last one where no class has it.
impl From<u8> for RouteClass {
    ghost from_gives = { λ number class. class ≡ class_of number };

    fn from(number: u8) -> RouteClass {
        match number {
            0 => RouteClass::Shunting,
            _ => RouteClass::Train,
        }
    }
}

/// A route: its class, the elements of its path and of its overlap, and whether it has a zero overlap. The default has no field.
#[derive(Clone, Copy, Default)]
pub struct Route {
    pub class: RouteClass,
    pub path: Option<Bounded<u8, 24>>,
    pub overlap: Option<Bounded<u8, 8>>,
    pub zero_overlap: bool,
}

/// The numbers of a list in order, none where there is no list.
fn numbers<const N: usize>(list: &Option<Bounded<u8, N>>) -> &[u8]
    ensures { result.now ≡ numbers list.now }
{
    list.as_ref().map_or(&[], Bounded::as_slice)
}

impl Route {
    /// The elements of the path in order, none where there is no path.
    pub fn path_elements(&self) -> &[u8]
        ensures { result.now ≡ path_of self.now }
    {
        numbers(&self.path)
    }

    /// The elements of the overlap in order, none where there is no overlap.
    pub fn overlap_elements(&self) -> &[u8]
        ensures { result.now ≡ overlap_of self.now }
    {
        numbers(&self.overlap)
    }
}
