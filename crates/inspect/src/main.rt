#![tactic(auto)]

ghost use Rattle.std.specs.Prelude.{◌≤◌, length, IfOk};

use examine::{LONGEST, examine};
use network::Network;
use report::{refusal_line, write_line};
use std::fs::File;
use std::io;
use std::io::Read;

mod account;

// A missing file reads as empty, and of a longer one no more than shows that it is too long.
fn load(rt: &HostRuntime, path: &str) -> io::Result<Vec<u8>>
    ensures within { IfOk result (λ bytes. length bytes.items ≤ 16385) }
{
    let mut bytes = Vec::new(rt.alloc());
    match File::open(rt, path) {
        Ok(file) => {
            file.take(LONGEST as u64 + 1).read_to_end(&mut bytes)?;
        }
        Err(e) if e.kind() == io::ErrorKind::NotFound => {}
        Err(e) => return Err(e),
    }
    // No contract knows what a file gives, so this alone shows that there is no more.
    bytes.truncate(LONGEST + 1);
    Ok(bytes)
}

fn main(rt: HostRuntime) -> io::Result<()> {
    let sheet = load(&rt, "network.bin")?;
    let recording = load(&rt, "recording.bin")?;
    let mut place = Network::smallest();
    match examine(sheet.as_slice(), recording.as_slice(), &mut place) {
        Ok(tally) => {
            account::network(&rt, &place)?;
            account::recording(&rt, tally)
        }
        Err(fault) => write_line(&mut rt.stdout(), &refusal_line(fault.into())),
    }
}
