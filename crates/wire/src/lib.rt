#![tactic(auto)]

ghost use Rattle.std.specs.Prelude.{◌≡◌};
ghost use Rattle.wire.specs.Reading.{number_at};
ghost use Rattle.wire.specs.Answers.{number_answer};
ghost use Rattle.wire.specs.Inverse.{TakesWhatIsWritten, TakesOnlyWhatIsWritten};

// What is wrong with the bytes of a number, with the place that a refusal names.
#[derive(Clone, Copy, Debug, PartialEq, Eq)]
pub enum ByteFault {
    // The bytes end before the number's last or fifth byte; the place is their length.
    Ends(usize),
    // Not the shortest form, or above 4,294,967,295; the place is the number's first byte.
    Form(usize),
}

// A number has at most this many bytes.
const MOST_BYTES: usize = 5;

// The number whose first byte stands at `at`, and the place behind its last byte: adds the groups
// up, the lowest first, until a byte without the top bit.
pub fn number(bytes: &[u8], at: usize) -> Result<(u32, usize), ByteFault>
    ensures reads { number_answer result ≡ number_at bytes.now at }
    ensures takes_what_is_written { TakesWhatIsWritten bytes.now at (number_answer result) }
    ensures takes_only_what_is_written { TakesOnlyWhatIsWritten bytes.now at (number_answer result) }
{
    let mut value = 0u64;
    let mut weight = 1u64;
    for (i, byte) in bytes.get(at..).unwrap_or(&[]).iter().enumerate() {
        value += u64::from(*byte % 128) * weight;
        if *byte < 128 {
            if *byte == 0 && i > 0 {
                return Err(ByteFault::Form(at));
            }
            return match u32::try_from(value) {
                Ok(n) => Ok((n, at + i + 1)),
                Err(_) => Err(ByteFault::Form(at)),
            };
        }
        if i + 1 == MOST_BYTES {
            return Err(ByteFault::Form(at));
        }
        weight *= 128;
    }
    Err(ByteFault::Ends(bytes.len()))
}
