// What the program `watch` writes of the two files of a run.
#![tactic(auto)]

ghost use Rattle.std.specs.Prelude.{◌≡◌};
ghost use Rattle.network.specs.Networks.{model_of};
ghost use Rattle.report.specs.Line.{row_of};
ghost use Rattle.examine.specs.declared.Fault.TheVariants.{Sheet, Recording};
ghost use Rattle.judge.specs.declared.Fault.TheVariants.{Files, Watch};
ghost use Rattle.judge.specs.Answers.{fault_of, refusal_of, text_of};
ghost use Rattle.judge.specs.Judging.{Watched, Judged};

use examine::LONGEST;
use monitor::{Followed, Stop, WatchFault, open};
use network::{Network, SheetFault, read_sheet};
use report::{Refusal, Report, refusal_line, report_line};
use source::{Recording, RecordingFault};
use time::{TimeKind, WholeTicks};

// So many entries a watch has here.
const ENTRIES: usize = 40;

// The bounds of an entry of the most clocks: eight, clock 0 and the elapsed clock, each with each.
const AREA: usize = 100;

// Why the files are not watched to the end of the recording.
#[derive(Clone, Copy, Debug, PartialEq, Eq)]
pub(crate) enum Fault {
    // A file is too long, or the sheet or the recording is refused.
    Files(examine::Fault),
    Watch(WatchFault),
}

impl From<SheetFault> for Fault {
    ghost from_gives = { λ fault r. r ≡ Files (Sheet fault) };

    fn from(fault: SheetFault) -> Fault {
        Fault::Files(fault.into())
    }
}

impl From<RecordingFault> for Fault {
    ghost from_gives = { λ fault r. r ≡ Files (Recording fault) };

    fn from(fault: RecordingFault) -> Fault {
        Fault::Files(fault.into())
    }
}

impl From<WatchFault> for Fault {
    ghost from_gives = { λ fault r. r ≡ Watch fault };

    fn from(fault: WatchFault) -> Fault {
        Fault::Watch(fault)
    }
}

impl From<Stop<RecordingFault>> for Fault {
    ghost from_gives = { λ stop r. r ≡ fault_of stop };

    fn from(stop: Stop<RecordingFault>) -> Fault {
        match stop {
            Stop::Source(fault) => fault.into(),
            Stop::Item(fault) => fault.into(),
        }
    }
}

impl From<Fault> for Refusal {
    ghost from_gives = { λ fault r. r ≡ refusal_of fault };

    fn from(fault: Fault) -> Refusal {
        match fault {
            Fault::Files(inner) => inner.into(),
            Fault::Watch(inner) => inner.into(),
        }
    }
}

// A watch over the network, in whole ticks and in rows of its own, is given the recording: its report,
// and the fault that stopped it, if one did.
fn follow(network: &Network, recording: &[u8]) -> Result<(Report, Option<Fault>), Fault>
    ensures watched { Watched (model_of network.now) recording.now (row_of (text_of result)) }
{
    let mut bounds = [WholeTicks::none(); (ENTRIES + 1) * AREA];
    let mut locations = [0; 8 * ENTRIES];
    let (watch, slip) = open(network, &mut bounds, &mut locations, ENTRIES)?;
    let recording = Recording::new(recording);
    match watch.follow(slip, network, &mut bounds, &mut locations, recording) {
        Followed::Ended(report) => Ok((report, None)),
        Followed::Stopped(report, stop) => Ok((report, Some(stop.into()))),
        // Never: the rows hold so many entries.
        Followed::Refused(watch, slip, _, fault) => {
            watch.close(slip);
            Err(fault.into())
        }
    }
}

// Both files are held to their length, then the sheet is read, and then its network is watched.
fn run(sheet: &[u8], recording: &[u8]) -> Result<(Report, Option<Fault>), Fault>
    ensures judged { Judged sheet.now recording.now (row_of (text_of result)) }
{
    if sheet.len() > LONGEST || recording.len() > LONGEST {
        return Err(Fault::Files(examine::Fault::TooLong));
    }
    let mut network = Network::smallest();
    read_sheet(sheet, &mut network)?;
    follow(&network, recording)
}

// The line of a run on these two files.
pub fn judge(sheet: &[u8], recording: &[u8]) -> [u8; 128]
    ensures judged { Judged sheet.now recording.now result }
{
    match run(sheet, recording) {
        Ok((report, None)) => report_line(report, None),
        Ok((report, Some(fault))) => report_line(report, Some(fault.into())),
        Err(fault) => refusal_line(fault.into()),
    }
}
