// Reads cases from standard input, a line each: the bytes of a sheet and of a recording in
// hexadecimal, `-` for none and `!` for a missing file. Prints the line of each, as `watch` does.
#![tactic(auto)]

ghost use Rattle.std.specs.Prelude.{◌<◌};

use judge::judge;
use report::write_line;
use std::alloc::Global;
use std::io;
use std::io::{BufRead, BufReader};

// Not `to_digit`, which takes capitals too, nor the crate hex, which refuses a lone digit.
fn digit(b: u8) -> u8
    ensures digit { result < 16 }
{
    match b {
        b'0'..=b'9' => b - b'0',
        b'a'..=b'f' => b - b'a' + 10,
        _ => 0,
    }
}

// The bytes that pairs of digits stand for; a lone digit, as `-` or `!`, stands for none.
fn bytes_of(heap: Global, text: &[u8]) -> io::Result<Vec<u8>> {
    let mut bytes = Vec::new(heap);
    for [high, low] in text.as_chunks::<2>().0 {
        bytes.push(digit(*high) * 16 + digit(*low))?;
    }
    Ok(bytes)
}

fn case(rt: &HostRuntime, text: &str) -> io::Result<()> {
    let Some((sheet, recording)) = text.split_once(' ') else {
        return println!(rt; "no case");
    };
    let sheet = bytes_of(rt.alloc(), sheet.as_bytes())?;
    let recording = bytes_of(rt.alloc(), recording.as_bytes())?;
    let line = judge(sheet.as_slice(), recording.as_slice());
    write_line(&mut rt.stdout(), &line)
}

fn main(rt: HostRuntime) -> io::Result<()> {
    let input = BufReader::new(rt.alloc(), rt.stdin())?;
    for text in input.lines(rt.alloc()) {
        case(&rt, text?.as_str())?;
    }
    Ok(())
}
