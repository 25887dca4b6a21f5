//! The aspects of a signal.

ghost use Rattle.std.specs.Prelude.{◌≡◌};
ghost use Rattle.holds.specs.Aspects.{aspect_number, permits, shown};

use sheets::sheet::Showing;

/// What a signal shows.
#[derive(Clone, Copy, PartialEq, Eq)]
pub enum Aspect {
    /// Stop.
    Stop = 0,
    /// Shunting is allowed.
    Shunting = 1,
    /// Proceed slowly.
    Slow = 2,
    /// Proceed.
    Proceed = 3,
}

impl Aspect {
    /// The number of the aspect.
    pub fn number(self) -> u8
        ensures { result ≡ aspect_number self }
    {
        self as u8
    }

    /// Whether the aspect is permissive.
    pub(crate) fn permits(self) -> bool
        ensures { result ≡ permits self }
    {
        self != Aspect::Stop
    }
}

impl From<Showing> for Aspect {
    ghost from_gives = { λ showing aspect. aspect ≡ shown showing };

    /// The aspect of what a route shows.
    fn from(showing: Showing) -> Aspect {
        match showing {
            Showing::Shunting => Aspect::Shunting,
            Showing::Slow => Aspect::Slow,
            Showing::Proceed => Aspect::Proceed,
        }
    }
}
