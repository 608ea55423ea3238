// Judges the files `network.bin` and `recording.bin` of the current folder.
#![tactic(auto)]

use examine::LONGEST;
use judge::judge;
use report::write_line;
use std::fs::File;
use std::io;
use std::io::Read;

// A missing file reads as empty, and of a longer one no more than shows that it is too long.
fn load(rt: &HostRuntime, path: &str) -> io::Result<Vec<u8>> {
    let mut bytes = Vec::new(rt.alloc());
    match File::open(rt, path) {
        Ok(file) => {
            file.take(LONGEST as u64 + 1).read_to_end(&mut bytes)?;
        }
        Err(e) if e.kind() == io::ErrorKind::NotFound => {}
        Err(e) => return Err(e),
    }
    Ok(bytes)
}

fn main(rt: HostRuntime) -> io::Result<()> {
    let sheet = load(&rt, "network.bin")?;
    let recording = load(&rt, "recording.bin")?;
    let line = judge(sheet.as_slice(), recording.as_slice());
    write_line(&mut rt.stdout(), &line)
}
