//! Cases of calls to services: a line of standard input is a table's name and a case, and the line that is printed for it is what came.
#![tactic(auto)]

mod planned;
mod service;
mod sockets;

use anyhow::Result;
use std::fs::{File, Files};
use std::io::Print;
use std::net::{Net, TcpListener, TcpStream};
use std::time::Clock;
use wf_cases::{Case, CaseFault, case_of};

/// What is printed for a case.
fn answer<R>(rt: R, case: &Case<'_>) -> Result<String, CaseFault>
where
    R: Files<File = File>
        + Clock
        + Print
        + Net<Listener = TcpListener, Stream = TcpStream>
        + AllocGlobal
        + Copy
        + Drop,
{
    match case.table {
        "services" => planned::calls(rt.alloc(), case),
        "sockets" => sockets::calls(rt, case),
        _ => Err(CaseFault::NoCase),
    }
}

/// What is printed for a line.
fn line_answer<R>(rt: R, line: &str) -> Result<String, CaseFault>
where
    R: Files<File = File>
        + Clock
        + Print
        + Net<Listener = TcpListener, Stream = TcpStream>
        + AllocGlobal
        + Copy
        + Drop,
{
    answer(rt, &case_of(rt.alloc(), line)?)
}

fn main(rt: HostRuntime) -> Result<()> {
    for line in rt.lines(rt.alloc()) {
        let text = line_answer(rt, line?.as_str())?;
        println!(rt; "{text}")?;
    }
    Ok(())
}
