ghost use Rattle.std.specs.Prelude.{◌≡◌, ◌≤◌, [], length};
ghost use Rattle.source.specs.declared.recorded.RecordingFault.TheVariants.{Byte};
ghost use Rattle.source.specs.Answers.{record_answer, step_answer};
ghost use Rattle.source.specs.Reading.{record_at, items_at, ending_at};
ghost use Rattle.source.specs.Steps.{next_of, rest_of};
ghost use Rattle.source.specs.Closing.{ClosesBehindItsItems, EndsOnlyAsLaidOut, EndsAsLaidOut};

use crate::{Item, TraceSource};
use wire::{ByteFault, number};

// Why a recording is refused, with the place that the refusal names.
#[derive(Clone, Copy, Debug, PartialEq, Eq)]
pub enum RecordingFault {
    // A number is at fault, or the bytes end before a record's first byte.
    Byte(ByteFault),
    // No record begins with this byte.
    FirstByte(usize),
    // Bytes are left behind the end record; the place is the first of them.
    LeftOver(usize),
}

impl From<ByteFault> for RecordingFault {
    ghost from_gives = { λ fault r. r ≡ Byte fault };

    fn from(fault: ByteFault) -> RecordingFault {
        RecordingFault::Byte(fault)
    }
}

// The bytes of a recording, and a position in them. They are read in place: nothing is copied.
#[derive(Drop)]
pub struct Recording<'a> {
    bytes: &'a [u8],
    at: usize,
    ghost within: { at ≤ length bytes.now },
}

impl<'a> Recording<'a> {
    // The clauses on the layout stand here, since every recording begins here.
    pub fn new(bytes: &'a [u8]) -> Recording<'a>
        ensures same_bytes { result.bytes.now ≡ bytes.now }
        ensures at_the_first_byte { result.at ≡ 0 }
        ensures closes_behind_its_items { ClosesBehindItsItems bytes.now (items_at result.bytes.now result.at) (ending_at result.bytes.now result.at) }
        ensures ends_only_as_laid_out { EndsOnlyAsLaidOut bytes.now (items_at result.bytes.now result.at) (ending_at result.bytes.now result.at) }
        ensures ends_as_laid_out { EndsAsLaidOut bytes.now (items_at result.bytes.now result.at) (ending_at result.bytes.now result.at) }
    {
        Recording { bytes, at: 0 }
    }

    // The place of the first byte that no answered item holds.
    pub fn position(&self) -> usize
        ensures is_the_position { result ≡ self.now.at }
    {
        self.at
    }

    // The record at the position: its item, or None for the end record; and the place behind it.
    fn record(&self) -> Result<(Option<Item>, usize), RecordingFault>
        ensures reads_the_record { record_answer result ≡ record_at self.now.bytes.now self.now.at }
    {
        // A pattern for each first byte. A `rest` begins where the whole without it ends.
        let whole = self.bytes.len();
        match &self.bytes[self.at..] {
            [0, rest @ ..] => {
                let (ticks, behind) = number(self.bytes, whole - rest.len())?;
                Ok((Some(Item::Wait(ticks)), behind))
            }
            [1, rest @ ..] => {
                let (channel, behind) = number(self.bytes, whole - rest.len())?;
                Ok((Some(Item::See(channel)), behind))
            }
            [2] => Ok((None, whole)),
            [2, rest @ ..] => Err(RecordingFault::LeftOver(whole - rest.len())),
            [_, ..] => Err(RecordingFault::FirstByte(self.at)),
            [] => Err(RecordingFault::Byte(ByteFault::Ends(whole))),
        }
    }
}

impl TraceSource for Recording<'_> {
    type Fault = RecordingFault;

    ghost items = { λ q. items_at q.bytes.now q.at };

    ghost ending = { λ q. ending_at q.bytes.now q.at };

    fn next(&mut self) -> Result<Option<Item>, RecordingFault>
        ensures answer { result ≡ next_of (items_at self.old.bytes.now self.old.at) (ending_at self.old.bytes.now self.old.at) }
        ensures rest { items_at self.new.bytes.now self.new.at ≡ rest_of (items_at self.old.bytes.now self.old.at) }
        ensures ending { ending_at self.new.bytes.now self.new.at ≡ ending_at self.old.bytes.now self.old.at }
        ensures stays { items_at self.old.bytes.now self.old.at ≡ [] → self.new ≡ self.old }
        ensures same_bytes { self.new.bytes.now ≡ self.old.bytes.now }
        ensures reads_one_record { step_answer self.new.at result ≡ record_at self.old.bytes.now self.old.at }
    {
        let (item, behind) = self.record()?;
        if item.is_some() {
            self.at = behind;
        }
        Ok(item)
    }
}
