//! An open station and what is done to it.

use crate::asking::{show_aspect, show_protection, show_protection_lent, show_state, show_station};
use crate::closed_session::ClosedSession;
use crate::command::{Command, Question};
use crate::replay::replay;
use acts::act::Act;
use equipment::equipment::Equipment;
use spoken::asked::{Asked, Look};
use spoken::looking::see;
use spoken::mistake::print_error;
use station::closed::ClosedStation;
use station::journal::Entry;
use station::open_station::OpenStation;
use std::alloc::Global;

/// An open station, with what its acts can be performed again from: the bytes of its plan, the field at its opening, and the acts.
pub(crate) struct OpenSession {
    pub(crate) station: OpenStation<Equipment>,
    pub(crate) bytes: Option<Vec<u8>>,
    pub(crate) first_field: Equipment,
    pub(crate) journal: Vec<Entry>,
}

impl OpenSession {
    /// Opens a closed station.
    pub(crate) fn opened(heap: Global, session: ClosedSession) -> OpenSession {
        let ClosedSession { station, bytes } = session;
        let first_field = station.field.duplicate();
        OpenSession {
            station: station.open(),
            bytes,
            first_field,
            journal: Vec::new(heap),
        }
    }

    /// Closes the station again.
    pub(crate) fn closed(self) -> ClosedSession {
        let OpenSession {
            station,
            bytes,
            first_field: _,
            journal: _,
        } = self;
        ClosedSession {
            station: station.close(),
            bytes,
        }
    }

    /// Performs an act, notes it with its answer, and says what the answer was.
    fn perform(&mut self, rt: &HostRuntime, act: Act) -> anyhow::Result<()> {
        let refusal = self.station.perform(act).err();
        let entry = Entry { act, refusal };
        self.journal.push(entry)?;
        println!(rt; "{entry}")?;
        Ok(())
    }

    fn answer(&self, rt: &HostRuntime, question: Question) -> anyhow::Result<()> {
        match question {
            Question::State(route) => show_state(rt, &self.station, route)?,
            Question::Aspect(signal) => show_aspect(rt, &self.station, signal)?,
            Question::Protection(route) => show_protection(rt, &self.station, route)?,
            Question::Lent {
                route,
                requests,
                branches,
            } => show_protection_lent(rt, &self.station, route, requests, branches)?,
            Question::Replay => replay(rt, self)?,
        }
        Ok(())
    }

    fn see(&self, rt: &HostRuntime, look: Look) -> anyhow::Result<()> {
        if let Look::All = look {
            show_station(rt, &self.station)?;
        }
        see(rt, self.station.plan(), self.station.field(), look)
    }

    /// Prints what a command does that leaves the station open.
    pub(crate) fn stay(&mut self, rt: &HostRuntime, command: Command<'_>) -> anyhow::Result<()> {
        match command {
            Command::Perform(act) => self.perform(rt, act)?,
            Command::Ask(question) => self.answer(rt, question)?,
            Command::Usual(Asked::See(look)) => self.see(rt, look)?,
            Command::Close => println!(rt; "station: closed")?,
            Command::Usual(Asked::Plan(_) | Asked::Field(_)) | Command::Open => {
                print_error(rt, "the station is open")?
            }
        }
        Ok(())
    }
}
