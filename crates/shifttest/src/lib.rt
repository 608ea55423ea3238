// Shifts that there are, and watches that follow sources.
#![tactic(auto)]

ghost use Rattle.network.specs.Networks.{model_of};
ghost use Rattle.monitor.specs.Rows.{HasRows};
ghost use Rattle.shifttest.specs.Witnesses.{Shows};

use monitor::open;
use network::Network;
use time::TimeKind;

// Opens a watch and closes it. Over rows that are long enough there are shifts, of every kind of time.
pub fn shifts_exist<T: TimeKind>(
    network: &Network,
    bounds: &mut [T],
    locations: &mut [u8],
    entries: usize,
)
    ensures shifts_exist { (d : T) → HasRows (model_of network.now) entries bounds.old locations.old → Shows T.had T.admits T.reach (model_of network.now) d entries bounds.new locations.new }
{
    if let Ok((watch, slip)) = open(network, bounds, locations, entries) {
        watch.close(slip);
    }
}

#[cfg(test)]
mod tests {
    use super::*;
    use monitor::{Followed, Stop, WatchFault};
    use network::read_sheet;
    use report::{Cause, Report, Verdict};
    use source::{Item, Queue, Recording, RecordingFault, TraceSource};
    use time::{SplitTicks, WholeTicks};
    use wire::ByteFault;

    // An input, answered by an output 3 to 5 ticks later.
    const BELL: [u8; 47] = [
        1, 1, 2, 0, 1, 2, 0, 1, 0, 1, 2, 0, 1, 1, 0, 5, 4, 0, 0, 0, 1, 0, 0, 0, 0, 0, 4, 0, 0, 1,
        0, 1, 2, 0, 1, 1, 1, 0, 3, 1, 0, 1, 0, 189, 132, 61, 0,
    ];

    // An output that is never given.
    const IDLE: [u8; 9] = [1, 0, 1, 1, 1, 1, 1, 0, 0];

    // What a follow by the network of a sheet comes to, and why it was stopped, if it was.
    fn follow<T: TimeKind, S: TraceSource + Drop>(
        sheet: &[u8],
        bounds: &mut [T],
        entries: usize,
        source: S,
    ) -> Option<(Report, Option<Stop<S::Fault>>)> {
        let mut network = Network::smallest();
        read_sheet(sheet, &mut network).ok()?;
        let mut locations = [0; 64];
        let (watch, slip) = open(&network, bounds, &mut locations, entries).ok()?;
        match watch.follow(slip, &network, bounds, &mut locations, source) {
            Followed::Ended(report) => Some((report, None)),
            Followed::Stopped(report, stop) => Some((report, Some(stop))),
            Followed::Refused(watch, slip, _, _) => {
                watch.close(slip);
                None
            }
        }
    }

    fn report(verdict: Verdict, cause: Cause, count: u64, tick: u64) -> Report {
        Report {
            verdict,
            cause,
            count,
            tick,
        }
    }

    #[test]
    fn to_the_end(rt: HostRuntime) {
        let items = Queue::new(&[Item::See(0), Item::Wait(4), Item::See(1)]);
        let passed = report(Verdict::Pass, Cause::Closed, 3, 4);
        assert!(rt; follow(&BELL, &mut [WholeTicks::none(); 81], 8, items) == Some((passed, None)));
        let recording = Recording::new(&[1, 0, 0, 4, 1, 1, 2]);
        assert!(rt;
            follow(&BELL, &mut [SplitTicks::none(); 81], 8, recording) == Some((passed, None))
        );
    }

    #[test]
    fn to_a_break(rt: HostRuntime) {
        let items = Queue::new(&[Item::See(0), Item::Wait(2), Item::See(1), Item::Wait(9)]);
        let early = report(Verdict::Fail, Cause::BrokenSee, 3, 2);
        assert!(rt; follow(&BELL, &mut [WholeTicks::none(); 81], 8, items) == Some((early, None)));
        let recording = Recording::new(&[1, 0, 0, 9, 2]);
        let late = report(Verdict::Fail, Cause::BrokenWait, 2, 6);
        assert!(rt;
            follow(&BELL, &mut [WholeTicks::none(); 81], 8, recording) == Some((late, None))
        );
        let items = Queue::new(&[Item::See(0), Item::Wait(7)]);
        let never = report(Verdict::Fail, Cause::BrokenSee, 1, 0);
        assert!(rt; follow(&IDLE, &mut [SplitTicks::none(); 12], 2, items) == Some((never, None)));
    }

    #[test]
    fn to_an_overrun(rt: HostRuntime) {
        let items = Queue::new(&[Item::Wait(0), Item::Wait(7)]);
        let full = report(Verdict::Inconclusive, Cause::Overrun, 1, 0);
        assert!(rt; follow(&IDLE, &mut [WholeTicks::none(); 8], 1, items) == Some((full, None)));
    }

    #[test]
    fn to_a_fault(rt: HostRuntime) {
        let recording = Recording::new(&[1, 0, 0, 4, 1]);
        let stopped = report(Verdict::Inconclusive, Cause::Refused, 2, 4);
        let stop = Stop::Source(RecordingFault::Byte(ByteFault::Ends(5)));
        assert!(rt;
            follow(&BELL, &mut [WholeTicks::none(); 81], 8, recording)
                == Some((stopped, Some(stop)))
        );
    }

    #[test]
    fn to_a_refused_item(rt: HostRuntime) {
        let items = Queue::new(&[Item::See(0), Item::See(7)]);
        let stopped = report(Verdict::Inconclusive, Cause::Refused, 1, 0);
        let stop = Stop::Item(WatchFault::Channel(1));
        assert!(rt;
            follow(&BELL, &mut [WholeTicks::none(); 81], 8, items) == Some((stopped, Some(stop)))
        );
    }

    #[test]
    fn rows_that_are_too_short(rt: HostRuntime) {
        let network = Network::smallest();
        let mut bounds = [WholeTicks::none(); 8];
        let mut locations = [0; 8];
        let Ok((watch, slip)) = open(&network, &mut bounds, &mut locations, 1) else {
            assert!(rt; false);
            return;
        };
        let source = Queue::new(&[Item::Wait(7)]);
        match watch.follow(slip, &network, &mut bounds[1..], &mut locations, source) {
            Followed::Refused(watch, slip, mut source, fault) => {
                watch.close(slip);
                assert!(rt; source.next() == Ok(Some(Item::Wait(7))));
                assert!(rt; fault == WatchFault::Rows(0));
            }
            _ => assert!(rt; false),
        }
    }

    #[test]
    fn shifts_over_rows(rt: HostRuntime) {
        let network = Network::smallest();
        let mut locations = [9; 16];
        let mut bounds = [WholeTicks::none(); 12];
        shifts_exist(&network, &mut bounds, &mut locations, 2);
        assert!(rt; bounds[0] == WholeTicks::at_most(0) && bounds[11] == WholeTicks::none());
        assert!(rt; locations[0] == 0 && locations[15] == 9);
        shifts_exist(&network, &mut [SplitTicks::none(); 12], &mut locations, 2);
    }
}
