// Shows how networks grow. Reads cases from standard input, a line each, of fields with a blank between:
//
//     SHEET TICKS ENTRIES MODE
//     SHEET TICKS ENTRIES MODE CHANNEL BEHIND
//
// SHEET is the bytes of a sheet in hexadecimal, and ENTRIES how many entries there are places for, 1 to 256. The
// estimate of the start is grown to TICKS, where MODE is `strict` with all limits kept, and where it is `loose`
// without those of the system's side. In the longer form it is then taken through a see on CHANNEL, 0 to 255, at
// TICKS, and what that leaves is grown to BEHIND ticks in the same mode; both are together at most
// 1,000,000,000,000, as in a watch. On a channel that is hidden or that there is not, no move is seen.
//
// Prints for each case a line: `refused` where a field has no such value or the sheet is refused, and else what
// each step comes to, with ` | ` between. A growth comes to how many entries it has, the locations of each, process
// by process, and the last tick that their elapsed clocks reach, as in `3: 0.0 0.1 1.1 to 5`; a see to how many
// entries it leaves and their locations, as in `1: 0.1`; and either to `overrun` where an entry finds no place.
// Behind a see that overruns nothing is grown.
#![tactic(auto)]

use case::case_of;
use hex::FromHexError;
use network::{Network, read_sheet};
use show::show_steps;
use std::alloc::AllocError;
use std::io;
use std::io::{BufRead, BufReader};

mod case;
mod show;

fn show_case(rt: &HostRuntime, text: &str) -> io::Result<()> {
    let Some(case) = case_of(text) else {
        return println!(rt; "refused");
    };
    let sheet = match hex::decode(rt.alloc(), case.sheet) {
        Ok(sheet) => sheet,
        Err(FromHexError::OutOfMemory) => return Err(AllocError.into()),
        Err(_) => return println!(rt; "refused"),
    };
    let mut network = Network::smallest();
    match read_sheet(sheet.as_slice(), &mut network) {
        Ok(()) => show_steps(rt, &case, &network),
        Err(_) => println!(rt; "refused"),
    }
}

fn main(rt: HostRuntime) -> io::Result<()> {
    let input = BufReader::new(rt.alloc(), rt.stdin())?;
    for text in input.lines(rt.alloc()) {
        show_case(&rt, text?.as_str())?;
    }
    Ok(())
}
