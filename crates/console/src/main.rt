//! The console: commands on standard input, one on a line, and what each did in print.
#![tactic(auto)]

mod asking;
mod closed_session;
mod command;
mod open_session;
mod replay;
mod session;
mod understanding;

use session::Session;
use spoken::mistake::{Mistake, print_error};
use spoken::understanding::command_on;
use std::io::{self, BufRead, BufReader, ErrorKind};
use understanding::understood;

/// Does what a line asks for, but for opening and closing, and says whether the station is to be turned.
fn carry_out(rt: &HostRuntime, session: &mut Session, line: &str) -> anyhow::Result<bool> {
    let Some(line) = command_on(line) else {
        return Ok(false);
    };
    match understood(line) {
        Ok(command) => session.carry_out(rt, command),
        Err(mistake) => {
            print_error(rt, mistake)?;
            Ok(false)
        }
    }
}

/// The same for the next line, or says that it is no text. Where the input cannot be read any further, that is an error.
fn go_on(
    rt: &HostRuntime,
    session: &mut Session,
    line: io::Result<String>,
) -> anyhow::Result<bool> {
    match line {
        Ok(text) => carry_out(rt, session, text.as_str()),
        Err(error) if error.kind() == ErrorKind::InvalidData => {
            print_error(rt, Mistake::NoText)?;
            Ok(false)
        }
        Err(error) => Err(error.into()),
    }
}

fn main(rt: HostRuntime) -> anyhow::Result<()> {
    let input = BufReader::new(rt.alloc(), rt.stdin())?;
    let mut session = Session::new();
    for line in input.lines(rt.alloc()) {
        match go_on(&rt, &mut session, line) {
            Ok(false) => {}
            Ok(true) => session = session.turned(rt.alloc()),
            Err(error) => {
                session.end();
                return Err(error);
            }
        }
    }
    session.end();
    Ok(())
}
