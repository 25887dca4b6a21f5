//! A station with 96 elements and 64 routes: sixteen places around a ring.
//!
//! A place has a train signal, a point, and a track that leads to the signal of the next place. A second point shields the flank of the first.
//! Four routes run from its signal: three trains to the next signal, with an overlap, a zero overlap and neither, and a shunting route to its track.

use std::alloc::{AllocError, Global};

/// The number of places.
pub(crate) const PLACES: u8 = 16;

/// The numbers of the elements of a place, and of their sections.
#[derive(Clone, Copy)]
pub(crate) struct Spot {
    pub signal: u8,
    pub point: u8,
    pub track: u8,
    pub side_end: u8,
    pub shield: u8,
    pub toe_end: u8,
    pub point_section: u8,
    pub track_section: u8,
    pub shield_section: u8,
}

/// The place with a number; the ring begins again after the last.
pub(crate) fn spot_at(number: u8) -> Spot {
    let first = (number % PLACES) * 6;
    let first_section = (number % PLACES) * 3;
    Spot {
        signal: first,
        point: first + 1,
        track: first + 2,
        side_end: first + 3,
        shield: first + 4,
        toe_end: first + 5,
        point_section: first_section,
        track_section: first_section + 1,
        shield_section: first_section + 2,
    }
}

fn push_elements(bytes: &mut Vec<u8>, number: u8) -> Result<(), AllocError> {
    let before = spot_at((number % PLACES) + PLACES - 1);
    let here = spot_at(number);
    let next = spot_at((number % PLACES) + 1);
    bytes.extend_from_slice(&[0x47, 3, before.track, 1, here.point, 0, 1])?;
    bytes.extend_from_slice(&[
        0x1F,
        1,
        here.signal,
        1,
        here.track,
        0,
        here.shield,
        2,
        here.point_section,
    ])?;
    bytes.extend_from_slice(&[0x16, here.point, 1, next.signal, 0, here.track_section])?;
    bytes.extend_from_slice(&[0x03, 4, here.shield, 1])?;
    bytes.extend_from_slice(&[
        0x1F,
        1,
        here.toe_end,
        0,
        here.side_end,
        0,
        here.point,
        2,
        here.shield_section,
    ])?;
    bytes.extend_from_slice(&[0x03, 4, here.shield, 0])
}

fn push_routes(bytes: &mut Vec<u8>, number: u8) -> Result<(), AllocError> {
    let here = spot_at(number);
    let next = spot_at((number % PLACES) + 1);
    let to_track = [here.signal, here.point, here.track];
    bytes.extend_from_slice(&[0x07, 1, 4])?;
    bytes.extend_from_slice(&to_track)?;
    bytes.extend_from_slice(&[next.signal, 2, next.point, next.track])?;
    bytes.extend_from_slice(&[0x0B, 1, 4])?;
    bytes.extend_from_slice(&to_track)?;
    bytes.extend_from_slice(&[next.signal, 1])?;
    bytes.extend_from_slice(&[0x03, 1, 4])?;
    bytes.extend_from_slice(&to_track)?;
    bytes.extend_from_slice(&[next.signal])?;
    bytes.extend_from_slice(&[0x02, 3])?;
    bytes.extend_from_slice(&to_track)
}

/// The plan file of the ring.
pub(crate) fn ring(heap: Global) -> Result<Vec<u8>, AllocError> {
    let mut bytes = Vec::new(heap);
    bytes.extend_from_slice(&[96, 64])?;
    for number in 0..PLACES {
        push_elements(&mut bytes, number)?;
    }
    for number in 0..PLACES {
        push_routes(&mut bytes, number)?;
    }
    Ok(bytes)
}
