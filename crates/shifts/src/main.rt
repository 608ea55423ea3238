// Runs example shifts on small networks, and prints each with its report, a line a shift.
#![tactic(auto)]

use examples::{ENTRIES, EXAMPLES, Example};
use network::{Network, read_sheet};
use report::{refusal_line, report_line, write_line};
use shift::{Course, Rows, Shift};
use source::Item;
use std::io;
use time::{SplitTicks, TimeKind, WholeTicks};

mod examples;
mod shift;

// The network, with what is out of the ordinary.
fn heading(rt: &HostRuntime, example: &Example) -> io::Result<()> {
    print!(rt; "{}", example.name)?;
    if example.split {
        print!(rt; ", split ticks")?;
    }
    if example.entries != ENTRIES {
        print!(rt; ", {} entries", example.entries)?;
    }
    Ok(())
}

fn calls(rt: &HostRuntime, items: &[Item], closes: bool) -> io::Result<()> {
    let mut sign = ":";
    for item in items {
        match item {
            Item::Wait(ticks) => print!(rt; "{sign} wait {ticks}")?,
            Item::See(channel) => print!(rt; "{sign} see {channel}")?,
        }
        sign = ",";
    }
    if closes {
        print!(rt; "{sign} close")?;
    }
    print!(rt; ": ")
}

fn outcome<R: Drop>(rt: &HostRuntime, course: Course<R>, closes: bool) -> io::Result<()> {
    match course {
        Course::Going(shift) => {
            let report = shift.close();
            if !closes {
                return println!(rt; "goes on");
            }
            write_line(&mut rt.stdout(), &report_line(report, None))
        }
        Course::Ended(report) => write_line(&mut rt.stdout(), &report_line(report, None)),
        Course::Refused(refusal) => write_line(&mut rt.stdout(), &refusal_line(refusal)),
    }
}

fn run<T: TimeKind>(rt: &HostRuntime, network: &Network, example: &Example) -> io::Result<()> {
    let rows = Rows::<T>::new(rt.alloc(), network, example.entries)?;
    let mut course = Shift::open(network, rows, example.entries);
    for item in example.items {
        course = course.after(network, *item);
    }
    outcome(rt, course, example.closes)
}

fn line(rt: &HostRuntime, example: &Example) -> io::Result<()> {
    heading(rt, example)?;
    calls(rt, example.items, example.closes)?;
    let mut network = Network::smallest();
    if read_sheet(example.sheet, &mut network).is_err() {
        return println!(rt; "no network");
    }
    if example.split {
        run::<SplitTicks>(rt, &network, example)
    } else {
        run::<WholeTicks>(rt, &network, example)
    }
}

fn main(rt: HostRuntime) -> io::Result<()> {
    for example in &EXAMPLES {
        line(&rt, example)?;
    }
    Ok(())
}
