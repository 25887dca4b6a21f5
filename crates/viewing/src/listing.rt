//! Lists in print, and what protects a route.

use flank::answers::Branch;
use refusals::refusal::Refusal;
use std::{fmt, io};

/// Prints each item on a line of its own.
pub fn print_lines<T: fmt::Display>(rt: &HostRuntime, items: &[T]) -> io::Result<()> {
    for item in items {
        println!(rt; "  {item}")?;
    }
    Ok(())
}

/// Ends a line with the numbers of requests and of open branches, and prints those of two lists, or ends it with why there are none.
pub fn print_listed<T: fmt::Display>(
    rt: &HostRuntime,
    counts: Result<(usize, usize), Refusal>,
    requests: &[T],
    branches: &[Branch],
) -> io::Result<()> {
    match counts {
        Ok((request_count, branch_count)) => {
            println!(rt; "{request_count} requests, {branch_count} open branches")?;
            print_lines(rt, requests.get(..request_count).unwrap_or(requests))?;
            print_lines(rt, branches.get(..branch_count).unwrap_or(branches))
        }
        Err(refusal) => println!(rt; "{refusal}"),
    }
}
