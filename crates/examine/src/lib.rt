#![tactic(auto)]

ghost use Rattle.std.specs.Prelude.{◌≡◌};
ghost use Rattle.examine.specs.Tallies.{capped, waits_in, sees_in, ticks_in};
ghost use Rattle.examine.specs.Answers.{Refuses};
ghost use Rattle.examine.specs.Examining.{examined, examine_answer, RefusedLeaves};
ghost use Rattle.examine.specs.declared.Fault.TheVariants.{Sheet, Recording};
ghost use Rattle.network.specs.Answers.{sheet_case};
ghost use Rattle.wire.specs.Answers.{byte_case};
ghost use Rattle.source.specs.Answers.{recording_case};

use network::{Network, SheetFault, read_sheet};
use report::{Document, Refusal};
use source::{Item, Recording, RecordingFault, TraceSource};
use wire::ByteFault;

// A file has at most this many bytes.
pub const LONGEST: usize = 16_384;

// What a source holds: how many waits and sees, how many ticks they wait in all, and its ending.
#[derive(Drop)]
pub struct Tally<F> {
    pub waits: u64,
    pub sees: u64,
    pub ticks: u64,
    pub ending: Result<(), F>,
}

// Why the files of a run are refused.
#[derive(Clone, Copy, Debug, PartialEq, Eq)]
pub enum Fault {
    // A file has more than `LONGEST` bytes.
    TooLong,
    Sheet(SheetFault),
    Recording(RecordingFault),
}

impl From<SheetFault> for Fault {
    ghost from_gives = { λ fault r. r ≡ Sheet fault };

    fn from(fault: SheetFault) -> Fault {
        Fault::Sheet(fault)
    }
}

impl From<RecordingFault> for Fault {
    ghost from_gives = { λ fault r. r ≡ Recording fault };

    fn from(fault: RecordingFault) -> Fault {
        Fault::Recording(fault)
    }
}

impl From<Fault> for Refusal {
    ghost from_gives = { Refuses };

    fn from(fault: Fault) -> Refusal {
        let (document, (number, place)) = match fault {
            // The numbers are those of docs/REFUSALS.md.
            Fault::TooLong => (Document::Program, (1, LONGEST)),
            Fault::Sheet(inner) => (Document::Sheet, sheet_case(inner)),
            Fault::Recording(inner) => (Document::Recording, recording_case(inner)),
        };
        Refusal {
            document,
            number,
            // A usize has no From to u64, and no value that does not fit.
            place: place as u64,
        }
    }
}

// The number of the rule that is broken, and the place that a refusal names.
fn sheet_case(fault: SheetFault) -> (u8, usize)
    ensures case { result ≡ sheet_case fault }
{
    match fault {
        SheetFault::Byte(inner) => byte_case(inner),
        SheetFault::Value(place) => (4, place),
        SheetFault::SelfComparison(place) => (5, place),
        SheetFault::AgainstSide(place) => (6, place),
        SheetFault::LeftOver(place) => (7, place),
    }
}

fn recording_case(fault: RecordingFault) -> (u8, usize)
    ensures case { result ≡ recording_case fault }
{
    match fault {
        RecordingFault::Byte(inner) => byte_case(inner),
        RecordingFault::FirstByte(place) => (4, place),
        RecordingFault::LeftOver(place) => (7, place),
    }
}

fn byte_case(fault: ByteFault) -> (u8, usize)
    ensures case { result ≡ byte_case fault }
{
    match fault {
        ByteFault::Ends(place) => (2, place),
        ByteFault::Form(place) => (3, place),
    }
}

// Asks a source to its ending. Each figure stops at the largest number.
pub fn tally_of<S: TraceSource + Drop>(mut source: S) -> Tally<S::Fault>
    ensures waits { result.waits ≡ capped (waits_in (S.TraceSource.items source)) }
    ensures sees { result.sees ≡ capped (sees_in (S.TraceSource.items source)) }
    ensures ticks { result.ticks ≡ capped (ticks_in (S.TraceSource.items source)) }
    ensures ending { result.ending ≡ S.TraceSource.ending source }
{
    let mut waits = 0u64;
    let mut sees = 0u64;
    let mut ticks = 0u64;
    // A source is no iterator: it may answer a fault.
    let ending = loop {
        match source.next() {
            Ok(Some(Item::Wait(d))) => {
                waits = waits.saturating_add(1);
                ticks = ticks.saturating_add(u64::from(d));
            }
            Ok(Some(Item::See(_))) => sees = sees.saturating_add(1),
            Ok(None) => break Ok(()),
            Err(fault) => break Err(fault),
        }
    };
    Tally {
        waits,
        sees,
        ticks,
        ending,
    }
}

// What the two files of a run come to: the first refusal of a file or of the sheet, or else the
// network, in its place, and a tally of the recording.
pub fn examine(
    sheet: &[u8],
    recording: &[u8],
    place: &mut Network,
) -> Result<Tally<RecordingFault>, Fault>
    ensures first_refusal_or_tally { examine_answer place.new result ≡ examined sheet.now recording.now }
    ensures refused_leaves_the_place { RefusedLeaves place.old place.new result }
{
    if sheet.len() > LONGEST || recording.len() > LONGEST {
        return Err(Fault::TooLong);
    }
    read_sheet(sheet, place)?;
    Ok(tally_of(Recording::new(recording)))
}

#[cfg(test)]
mod tests {
    use super::*;
    use std::test::Fail;

    const BELL: [u8; 47] = [
        1, 1, 2, 0, 1, 2, 0, 1, 0, 1, 2, 0, 1, 1, 0, 5, 4, 0, 0, 0, 1, 0, 0, 0, 0, 0, 4, 0, 0, 1,
        0, 1, 2, 0, 1, 1, 1, 0, 3, 1, 0, 1, 0, 189, 132, 61, 0,
    ];

    fn refusal(sheet: &[u8], place: &mut Network) -> Option<(u8, u64)> {
        let fault = examine(sheet, &[2], place).err()?;
        let refusal = Refusal::from(fault);
        Some((refusal.number, refusal.place))
    }

    #[test]
    fn the_bell(rt: HostRuntime) {
        let mut place = Network::smallest();
        match examine(&BELL, &[1, 0, 0, 4, 1, 1, 2], &mut place) {
            Ok(tally) => assert!(rt; tally.waits == 1 && tally.sees == 2 && tally.ticks == 4),
            Err(_) => assert!(rt; false),
        }
        assert!(rt; place.edges().len() == 4);
    }

    #[test]
    fn the_smallest_sheet(rt: HostRuntime) {
        let mut place = Network::smallest();
        assert!(rt; examine(&[1, 0, 0, 1, 0, 1, 0, 0], &[2], &mut place).is_ok());
    }

    fn put(sheet: &mut Vec<u8>, fields: &[u32]) -> Result<(), Fail> {
        for field in fields {
            let mut v = *field;
            // At most five bytes; a `while` would want a measure.
            for _ in 0..5 {
                if v < 128 {
                    break;
                }
                sheet.push((v % 128) as u8 + 128)?;
                v /= 128;
            }
            sheet.push((v % 128) as u8)?;
        }
        Ok(())
    }

    // Every count at its most, and every number at its longest.
    #[test]
    fn the_largest_sheet(rt: HostRuntime) -> Result<(), Fail> {
        let mut sheet = Vec::new(rt.alloc());
        put(&mut sheet, &[1, 8, 32])?;
        put(&mut sheet, &[2; 32])?;
        put(&mut sheet, &[8])?;
        for _ in 0..8 {
            put(&mut sheet, &[1, 16])?;
            for _ in 0..16 {
                put(&mut sheet, &[2, 8, 1, 1_000_000, 7, 0, 999_999])?;
            }
        }
        put(&mut sheet, &[128])?;
        for _ in 0..128 {
            put(
                &mut sheet,
                &[
                    7, 15, 0, 64, 4, 8, 0, 1, 2_000_000, 0, 7, 0, 16_384, 3, 4, 1, 1_000_000, 1, 2,
                    0, 999_999, 255,
                ],
            )?;
        }
        let mut place = Network::smallest();
        assert!(rt; sheet.len() == 5430);
        assert!(rt; examine(sheet.as_slice(), &[2], &mut place).is_ok());
        assert!(rt; place.edges().len() == 128);
        Ok(())
    }

    #[test]
    fn refusals_name_their_place(rt: HostRuntime) {
        let mut place = Network::smallest();
        assert!(rt; refusal(&[], &mut place) == Some((2, 0)));
        assert!(rt; refusal(&[2], &mut place) == Some((4, 0)));
        assert!(rt; refusal(&[1, 128, 0], &mut place) == Some((3, 1)));
        assert!(rt; refusal(&[1, 0, 0, 1, 0, 1, 0, 0, 0], &mut place) == Some((7, 8)));
    }
}
