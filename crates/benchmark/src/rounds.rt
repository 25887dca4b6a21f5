//! Rounds of work on a station: in each, every place sees its routes set, reported, dropped, cleared and released.

use crate::sites::{Place, Site};
use crate::tally::Tally;
use acts::act::{Act, Event};
use plan::plan::Plan;
use station::closed::ClosedStation;
use station::open_station::OpenStation;
use std::alloc::{AllocError, Global};
use tablefield::table::TableField;

impl Place {
    /// The routes of a place take turns.
    fn route(&self, turn: u32) -> u8 {
        let count = u32::from(self.last_route.saturating_sub(self.first_route)) + 1;
        self.first_route.saturating_add((turn % count) as u8)
    }
}

/// A station at work, and what came of it so far.
struct Bench {
    site: Site,
    station: OpenStation<TableField>,
    tally: Tally,
}

impl Bench {
    fn act(&mut self, act: Act) {
        match self.station.perform(act) {
            Ok(()) => self.tally.accept(),
            Err(refusal) => self.tally.refuse(refusal.number()),
        }
    }

    fn report(&mut self, element: u8, value: u8) {
        let event = Event::Report { element, value };
        self.act(event.into());
    }

    fn light(&mut self, signal: u8, value: u8) {
        let event = Event::Lamp { signal, value };
        self.act(event.into());
    }

    fn occupy(&mut self, section: u8, value: u8) {
        let event = Event::Occupation { section, value };
        self.act(event.into());
    }

    /// Sets a route of a place, and reports its points. The next route over the same point is refused.
    fn set(&mut self, place: Place, turn: u32) {
        let route = place.route(turn);
        self.act(Act::Set { route });
        let next_route = place.route(turn.wrapping_add(1));
        self.act(Act::Set { route: next_route });
        self.report(place.point, 0);
        self.report(place.shield, 0);
        self.light(place.lamp, 1);
    }

    /// The shielding point of a place loses its control and has it again: the route drops, and is cleared.
    fn disturb(&mut self, place: Place, turn: u32) {
        let route = place.route(turn);
        self.report(place.shield, 2);
        self.report(place.shield, 0);
        self.act(Act::Clear { route });
    }

    /// A train passes, and the route is not released under it. Then it is, its signal goes dark, and its point is no longer reported.
    fn release(&mut self, place: Place, turn: u32) {
        let route = place.route(turn);
        self.occupy(place.section, 1);
        self.act(Act::Release { route });
        self.occupy(place.section, 0);
        self.act(Act::Release { route });
        self.light(place.lamp, 0);
        self.report(place.point, 2);
    }

    /// Sees the aspect of the signal of each place, and the states of its routes.
    fn look(&mut self) {
        for number in 0..self.site.place_count() {
            let place = self.site.place(number);
            if let Ok(aspect) = self.station.aspect(place.signal) {
                self.tally.see(aspect.number());
            }
            for route in place.first_route..=place.last_route {
                if let Ok(state) = self.station.state(route) {
                    self.tally.see(state.number());
                }
            }
        }
    }

    /// One step of a round, at all places in turn.
    fn everywhere<F: Fn(&mut Bench, Place)>(&mut self, step: F)
        requires { F.IsAlwaysCallable step }
    {
        for number in 0..self.site.place_count() {
            step(self, self.site.place(number));
        }
        self.look();
    }

    fn round(&mut self, turn: u32) {
        self.everywhere(|bench, place| bench.set(place, turn));
        self.everywhere(|bench, place| bench.disturb(place, turn));
        self.everywhere(|bench, place| bench.release(place, turn));
    }
}

/// Works a station for a number of rounds.
pub(crate) fn worked(heap: Global, site: Site, rounds: u32) -> Result<Tally, AllocError> {
    let bytes = site.bytes(heap)?;
    let mut plan = Plan::fresh();
    let _ = plan.read(bytes.as_slice());
    let field = TableField::fresh();
    let mut bench = Bench {
        site,
        station: ClosedStation { plan, field }.open(),
        tally: Tally::default(),
    };
    for turn in 0..rounds {
        bench.round(turn);
    }
    let Bench {
        site: _,
        station,
        tally,
    } = bench;
    let ClosedStation { plan: _, field: _ } = station.close();
    Ok(tally)
}
