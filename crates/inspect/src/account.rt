use examine::{Fault, Tally};
use model::*;
use network::Network;
use report::{refusal_line, write_line};
use source::RecordingFault;
use std::fmt::Display;
use std::io;

// A part prints itself, but not its number, which it does not know.

// Parts in a row: the first behind its word, each other one behind `and`.
fn series<T: Display>(rt: &HostRuntime, opening: &str, parts: &[T]) -> io::Result<()> {
    for (i, part) in parts.iter().enumerate() {
        let word = if i == 0 { opening } else { " and" };
        print!(rt; "{word} {part}")?;
    }
    Ok(())
}

fn channels(rt: &HostRuntime, kinds: &[ChannelKind]) -> io::Result<()> {
    for (k, kind) in kinds.iter().enumerate() {
        println!(rt; "channel {k}: {kind}")?;
    }
    Ok(())
}

fn locations(rt: &HostRuntime, all: &[Location]) -> io::Result<()> {
    for (i, location) in all.iter().enumerate() {
        print!(rt; "  location {i}")?;
        series(rt, ":", location.limits())?;
        println!(rt; "")?;
    }
    Ok(())
}

fn processes(rt: &HostRuntime, all: &[Process]) -> io::Result<()> {
    for (p, process) in all.iter().enumerate() {
        println!(rt; "process {p}: {}", process.side)?;
        locations(rt, process.locations())?;
    }
    Ok(())
}

fn resets(rt: &HostRuntime, mask: u8) -> io::Result<()> {
    let mut word = ", resets";
    for clock in 1..=8u8 {
        if (mask >> (clock - 1)) % 2 == 1 {
            print!(rt; "{word} clock {clock}")?;
            word = " and";
        }
    }
    Ok(())
}

fn edges(rt: &HostRuntime, all: &[Edge]) -> io::Result<()> {
    for (i, e) in all.iter().enumerate() {
        print!(rt;
            "edge {i}: process {}, location {} to {}, {}",
            e.process, e.from, e.to, e.label
        )?;
        series(rt, ", when", e.conditions())?;
        resets(rt, e.resets)?;
        println!(rt; "")?;
    }
    Ok(())
}

// The whole network in words, its parts by number.
pub(crate) fn network(rt: &HostRuntime, n: &Network) -> io::Result<()> {
    let clocks = n.clocks();
    let width = n.channels().len();
    let count = n.processes().len();
    let many = n.edges().len();
    println!(rt; "network: clocks {clocks}, channels {width}, processes {count}, edges {many}")?;
    channels(rt, n.channels())?;
    processes(rt, n.processes())?;
    edges(rt, n.edges())
}

// The figures of the recording, and how it ends; a refusal by its row, as every line of a run is written.
pub(crate) fn recording(rt: &HostRuntime, tally: Tally<RecordingFault>) -> io::Result<()> {
    println!(rt;
        "recording: waits {}, sees {}, ticks {}",
        tally.waits, tally.sees, tally.ticks
    )?;
    match tally.ending {
        Ok(()) => println!(rt; "ends"),
        Err(fault) => write_line(&mut rt.stdout(), &refusal_line(Fault::from(fault).into())),
    }
}
