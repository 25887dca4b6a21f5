//! A closed station and what is done to it.

use crate::command::Command;
use equipment::equipment::Equipment;
use plan::plan::Plan;
use spoken::answering::answer;
use spoken::asked::Asked;
use spoken::mistake::print_error;
use station::closed::ClosedStation;

/// A closed station, with the bytes that its plan was read from; none where the plan is fresh.
pub(crate) struct ClosedSession {
    pub(crate) station: ClosedStation<Equipment>,
    pub(crate) bytes: Option<Vec<u8>>,
}

impl ClosedSession {
    /// A fresh plan and a fresh table.
    pub(crate) fn new() -> ClosedSession {
        ClosedSession {
            station: ClosedStation {
                plan: Plan::fresh(),
                field: Equipment::table(),
            },
            bytes: None,
        }
    }

    /// Takes the station apart.
    pub(crate) fn end(self) {
        let ClosedSession { station, bytes: _ } = self;
        let ClosedStation { plan: _, field: _ } = station;
    }

    /// Does what a closed station is asked for, prints what it did, and keeps the bytes of a plan that was accepted.
    fn answer(&mut self, rt: &HostRuntime, asked: Asked<'_>) -> anyhow::Result<()> {
        let ClosedStation { plan, field } = &mut self.station;
        if let Some(bytes) = answer(rt, plan, field, asked)? {
            self.bytes = Some(bytes);
        }
        Ok(())
    }

    /// Prints what a command does that leaves the station closed.
    pub(crate) fn stay(&mut self, rt: &HostRuntime, command: Command<'_>) -> anyhow::Result<()> {
        match command {
            Command::Usual(asked) => self.answer(rt, asked)?,
            Command::Open => println!(rt; "station: open")?,
            Command::Perform(_) | Command::Ask(_) | Command::Close => {
                print_error(rt, "the station is closed")?
            }
        }
        Ok(())
    }
}
