//! What a route has to do with an element or a section.

ghost use Rattle.std.specs.Prelude.{◌≡◌, Bool};
ghost use Rattle.sheets.specs.Wants.{no_want};
ghost use Rattle.sheets.specs.Sections.{no_use};
ghost use Rattle.sheets.specs.Lists.{is_wanted, is_used};

use crate::sheet::{SectionUse, Want};

/// What a route has to do with one of the things of a plan, if anything.
pub trait Concern: Copy {
    ghost nothing: { Self };

    ghost is_any: { Self → Bool };

    /// Whether the route has anything to do with it.
    fn is_any(self) -> bool
        ensures { result ≡ is_any self };
}

impl Concern for Want {
    ghost nothing = { no_want };

    ghost is_any = { is_wanted };

    fn is_any(self) -> bool {
        self.need.is_some() || self.request.is_some()
    }
}

impl Concern for SectionUse {
    ghost nothing = { no_use };

    ghost is_any = { is_used };

    fn is_any(self) -> bool {
        self.path || self.overlap
    }
}
