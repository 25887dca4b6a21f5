//! The stations that are worked.

use crate::ring::{PLACES, ring, spot_at};
use std::alloc::{AllocError, Global};
use worked_plans::plans;

/// The smallest station, with one route, or the largest, with 96 elements and 64 routes.
#[derive(Clone, Copy)]
pub(crate) enum Site {
    Small,
    Full,
}

/// Routes that begin at one signal and run over one point.
#[derive(Clone, Copy)]
pub(crate) struct Place {
    pub signal: u8,
    /// The signal whose lamp is lit and darkened.
    pub lamp: u8,
    pub point: u8,
    /// The point that shields the flank of the other.
    pub shield: u8,
    /// The section of the point.
    pub section: u8,
    pub first_route: u8,
    pub last_route: u8,
}

/// The only place of the smallest station.
const ONLY_PLACE: Place = Place {
    signal: 1,
    lamp: 3,
    point: 2,
    shield: 5,
    section: 0,
    first_route: 0,
    last_route: 0,
};

/// A place of the ring.
fn ring_place(number: u8) -> Place {
    let spot = spot_at(number);
    let first_route = (number % PLACES) * 4;
    Place {
        signal: spot.signal,
        lamp: spot.signal,
        point: spot.point,
        shield: spot.shield,
        section: spot.point_section,
        first_route,
        last_route: first_route + 3,
    }
}

impl Site {
    /// The plan file of the station.
    pub(crate) fn bytes(self, heap: Global) -> Result<Vec<u8>, AllocError> {
        match self {
            Site::Small => Vec::from_slice(heap, plans::K),
            Site::Full => ring(heap),
        }
    }

    /// The number of its places.
    pub(crate) fn place_count(self) -> u8 {
        match self {
            Site::Small => 1,
            Site::Full => PLACES,
        }
    }

    pub(crate) fn place(self, number: u8) -> Place {
        match self {
            Site::Small => ONLY_PLACE,
            Site::Full => ring_place(number),
        }
    }
}
