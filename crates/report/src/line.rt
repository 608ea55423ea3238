ghost use Rattle.std.specs.Prelude.{◌≡◌, ◌+◌, ◌<◌, ◌≤◌, ◌++◌, length};
ghost use Rattle.arrayvec.specs.ArrayString.{array_string_len};
ghost use Rattle.report.specs.Line.{field, row_of};

use arrayvec::ArrayString;
use itoa::Buffer;

// A text under construction, in fixed memory.
pub(crate) type Line = ArrayString<128>;

// A number behind a blank.
pub(crate) fn put_field(line: &mut Line, n: u64)
    requires room { array_string_len line.old + 21 ≤ 128 }
    ensures text { line.new.bytes ≡ line.old.bytes ++ field n }
    ensures short { length (field n) ≤ 21 }
    ensures digit { n < 10 → length (field n) ≡ 2 }
{
    let mut digits = Buffer::new();
    line.push(' ');
    line.push_str(digits.format(n));
}

// The text, and zeros behind it.
pub(crate) fn row_of(line: &Line) -> [u8; 128]
    ensures row { result ≡ row_of line.now.bytes }
    ensures whole { length line.now.bytes ≤ 128 }
{
    let mut row = [0; 128];
    row[..line.len()].copy_from_slice(line.as_str().as_bytes());
    row
}
