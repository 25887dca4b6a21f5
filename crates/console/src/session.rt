//! What the console keeps from line to line: a station that is closed or open.

use crate::closed_session::ClosedSession;
use crate::command::Command;
use crate::open_session::OpenSession;
use std::alloc::Global;

pub(crate) enum Session {
    Closed(ClosedSession),
    Open(OpenSession),
}

impl Session {
    pub(crate) fn new() -> Session {
        Session::Closed(ClosedSession::new())
    }

    /// Takes the station apart.
    pub(crate) fn end(self) {
        match self {
            Session::Closed(session) => session.end(),
            Session::Open(session) => session.closed().end(),
        }
    }

    /// Opens the closed station, or closes the open one.
    pub(crate) fn turned(self, heap: Global) -> Session {
        match self {
            Session::Closed(session) => Session::Open(OpenSession::opened(heap, session)),
            Session::Open(session) => Session::Closed(session.closed()),
        }
    }

    /// Whether a command opens the closed station, or closes the open one.
    fn is_turned_by(&self, command: Command<'_>) -> bool {
        match self {
            Session::Closed(_) => matches!(command, Command::Open),
            Session::Open(_) => matches!(command, Command::Close),
        }
    }

    /// Prints what a command does, does what it asks for but for opening and closing, and says whether the station is to be turned.
    /// What is open or closed stays in its place for that: moved, it would be copied whole for each line.
    pub(crate) fn carry_out(
        &mut self,
        rt: &HostRuntime,
        command: Command<'_>,
    ) -> anyhow::Result<bool> {
        let is_turned = self.is_turned_by(command);
        match self {
            Session::Closed(session) => session.stay(rt, command)?,
            Session::Open(session) => session.stay(rt, command)?,
        }
        Ok(is_turned)
    }
}
