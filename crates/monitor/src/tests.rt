// Watches run on numbers: calls that are refused, reports, and rows that are not a watch's own.
use crate::{Reply, Slip, Watch, WatchFault, open};
use network::{Network, read_sheet};
use report::{Cause, Report, Verdict};
use source::Item;
use std::process::Abort;
use time::{SplitTicks, TimeKind, WholeTicks};

// One clock, an input and an output: the environment sends on 0 and receives on 1, the system receives
// on 0 and sends on 1 from 3 to 5 ticks later.
const BELL: &[u8] = &[
    1, 1, 2, 0, 1, 2, 0, 1, 0, 1, 2, 0, 1, 1, 0, 5, 4, 0, 0, 0, 1, 0, 0, 0, 0, 0, 4, 0, 0, 1, 0, 1,
    2, 0, 1, 1, 1, 0, 3, 1, 0, 1, 0, 189, 132, 61, 0,
];

// No clock, a hidden channel, and the environment in one location.
const HIDDEN: &[u8] = &[1, 0, 1, 2, 1, 0, 1, 0, 0];

fn network_of(rt: &impl Abort, sheet: &[u8]) -> Network {
    let mut network = Network::smallest();
    assert!(rt; read_sheet(sheet, &mut network).is_ok());
    network
}

// Rows for 257 entries of a network without clocks, with no two neighbours alike.
#[derive(Clone, Copy, PartialEq)]
struct Rows {
    bounds: [WholeTicks; 1032],
    locations: [u8; 2056],
}

impl Rows {
    fn new() -> Rows {
        let mut rows = Rows {
            bounds: [WholeTicks::none(); 1032],
            locations: [0; 2056],
        };
        let mut n = 0u8;
        for bound in &mut rows.bounds {
            n = n.wrapping_add(7);
            *bound = WholeTicks::at_most(i64::from(n));
        }
        for location in &mut rows.locations {
            n = n.wrapping_add(7);
            *location = n;
        }
        rows
    }
}

fn is_not_opened(bounds: &mut [WholeTicks], locations: &mut [u8], entries: usize) -> bool {
    match open(&Network::smallest(), bounds, locations, entries) {
        Ok((watch, slip)) => {
            watch.close(slip);
            false
        }
        Err(fault) => fault == WatchFault::Rows(0),
    }
}

#[test]
fn an_opening_wants_long_rows_and_some_entries(rt: HostRuntime) {
    let mut rows = Rows::new();
    let before = rows;
    assert!(rt; is_not_opened(&mut rows.bounds[..11], &mut rows.locations[..16], 2));
    assert!(rt; is_not_opened(&mut rows.bounds[..12], &mut rows.locations[..15], 2));
    assert!(rt; is_not_opened(&mut rows.bounds, &mut rows.locations, 0));
    assert!(rt; is_not_opened(&mut rows.bounds, &mut rows.locations, 257));
    assert!(rt; rows == before);
}

#[test]
fn an_opening_takes_rows_that_are_just_long_enough(rt: HostRuntime) {
    let mut rows = Rows::new();
    assert!(rt; !is_not_opened(&mut rows.bounds[..12], &mut rows.locations[..16], 2));
    assert!(rt; !is_not_opened(&mut [WholeTicks::none(); 1028], &mut [0; 2048], 256));
}

// A watch that is opened, or goes on.
fn going(rt: &impl Abort, reply: Reply) -> (Watch, Slip) {
    match reply {
        Reply::Going(watch, slip) => (watch, slip),
        Reply::Ended(_) | Reply::Refused(..) => panic!(rt; "it does not go on"),
    }
}

// A watch that a refused call hands back.
fn refused(rt: &impl Abort, reply: Reply, fault: WatchFault) -> (Watch, Slip) {
    match reply {
        Reply::Refused(watch, slip, found) => {
            assert!(rt; found == fault);
            (watch, slip)
        }
        Reply::Going(..) | Reply::Ended(_) => panic!(rt; "it is not refused"),
    }
}

// A watch for two entries on these rows, after a wait of 5 ticks.
fn after_a_wait(
    rt: &impl Abort,
    network: &Network,
    bounds: &mut [WholeTicks],
    locations: &mut [u8],
) -> (Watch, Slip) {
    let Ok((watch, slip)) = open(network, bounds, locations, 2) else {
        panic!(rt; "it does not open")
    };
    going(rt, watch.wait(slip, network, bounds, locations, 5))
}

#[test]
fn a_call_over_short_rows_changes_nothing(rt: HostRuntime) {
    let network = network_of(&rt, HIDDEN);
    let mut rows = Rows::new();
    let (watch, slip) = after_a_wait(
        &rt,
        &network,
        &mut rows.bounds[..12],
        &mut rows.locations[..16],
    );
    let before = rows;
    let reply = watch.wait(
        slip,
        &network,
        &mut rows.bounds[..11],
        &mut rows.locations[..16],
        1,
    );
    let (watch, slip) = refused(&rt, reply, WatchFault::Rows(1));
    let reply = watch.wait(
        slip,
        &network,
        &mut rows.bounds[..12],
        &mut rows.locations[..15],
        1,
    );
    let (watch, slip) = refused(&rt, reply, WatchFault::Rows(1));
    // Short rows come before a channel that there is not.
    let reply = watch.see(
        slip,
        &network,
        &mut rows.bounds[..11],
        &mut rows.locations[..16],
        1,
    );
    let (watch, slip) = refused(&rt, reply, WatchFault::Rows(1));
    assert!(rt; rows == before);
    let report = watch.close(slip);
    assert!(rt; report.count == 1 && report.tick == 5);
}

#[test]
fn a_see_of_no_channel_changes_nothing(rt: HostRuntime) {
    let network = network_of(&rt, HIDDEN);
    let mut rows = Rows::new();
    let (mut watch, mut slip) = after_a_wait(
        &rt,
        &network,
        &mut rows.bounds[..12],
        &mut rows.locations[..16],
    );
    let before = rows;
    // A hidden channel, none, and one whose lowest byte alone is a channel.
    for channel in [0, 1, 256] {
        let reply = watch.see(
            slip,
            &network,
            &mut rows.bounds,
            &mut rows.locations,
            channel,
        );
        (watch, slip) = refused(&rt, reply, WatchFault::Channel(1));
    }
    assert!(rt; rows == before);
    let report = watch.close(slip);
    assert!(rt; report.count == 1 && report.tick == 5);
}

// A watch after 232 of the longest waits; the most ticks are 3,567,587,560 more.
fn after_long_waits(rt: &impl Abort, network: &Network, rows: &mut Rows) -> (Watch, Slip) {
    let Ok((mut watch, mut slip)) = open(network, &mut rows.bounds, &mut rows.locations, 2) else {
        panic!(rt; "it does not open")
    };
    for _ in 0..232 {
        let reply = watch.wait(
            slip,
            network,
            &mut rows.bounds,
            &mut rows.locations,
            u32::MAX,
        );
        (watch, slip) = going(rt, reply);
    }
    (watch, slip)
}

#[test]
fn no_watch_goes_past_the_most_ticks(rt: HostRuntime) {
    let network = Network::smallest();
    let mut rows = Rows::new();
    let (watch, slip) = after_long_waits(&rt, &network, &mut rows);
    let before = rows;
    let reply = watch.wait(
        slip,
        &network,
        &mut rows.bounds,
        &mut rows.locations,
        3_567_587_561,
    );
    let (watch, slip) = refused(&rt, reply, WatchFault::Range(232));
    // Short rows come before ticks above the most.
    let reply = watch.wait(
        slip,
        &network,
        &mut rows.bounds[..4],
        &mut rows.locations,
        u32::MAX,
    );
    let (watch, slip) = refused(&rt, reply, WatchFault::Rows(232));
    assert!(rt; rows == before);
    let reply = watch.wait(
        slip,
        &network,
        &mut rows.bounds,
        &mut rows.locations,
        3_567_587_560,
    );
    let (watch, slip) = going(&rt, reply);
    let report = watch.close(slip);
    assert!(rt; report.count == 233 && report.tick == 1_000_000_000_000);
}

// One item more, of a watch over these rows.
fn take<T: TimeKind>(
    (watch, slip): (Watch, Slip),
    network: &Network,
    bounds: &mut [T],
    locations: &mut [u8],
    item: Item,
) -> Reply {
    match item {
        Item::Wait(ticks) => watch.wait(slip, network, bounds, locations, ticks),
        Item::See(channel) => watch.see(slip, network, bounds, locations, channel),
    }
}

// The report of a watch on the bell that these items end, or that is closed behind them; none if it is
// refused.
fn report_of<T: TimeKind>(
    network: &Network,
    bounds: &mut [T],
    entries: usize,
    items: &[Item],
) -> Option<Report> {
    let locations = &mut [0; 320];
    let (mut watch, mut slip) = open(network, bounds, locations, entries).ok()?;
    for item in items {
        match take((watch, slip), network, bounds, locations, *item) {
            Reply::Going(next, its) => (watch, slip) = (next, its),
            Reply::Ended(report) => return Some(report),
            Reply::Refused(last, its, _) => {
                last.close(its);
                return None;
            }
        }
    }
    Some(watch.close(slip))
}

const fn report(verdict: Verdict, cause: Cause, count: u64, tick: u64) -> Option<Report> {
    Some(Report {
        verdict,
        cause,
        count,
        tick,
    })
}

#[test]
fn reports(rt: HostRuntime) {
    let bell = network_of(&rt, BELL);
    let (push, ring) = (Item::See(0), Item::See(1));
    for (entries, items, wanted) in [
        (
            40,
            &[push, Item::Wait(5), ring],
            report(Verdict::Pass, Cause::Closed, 3, 5),
        ),
        (
            40,
            &[push, Item::Wait(3), Item::Wait(3)],
            report(Verdict::Fail, Cause::BrokenWait, 3, 6),
        ),
        (
            40,
            &[push, Item::Wait(2), ring],
            report(Verdict::Fail, Cause::BrokenSee, 3, 2),
        ),
        (
            40,
            &[push, Item::Wait(2), push],
            report(Verdict::Inconclusive, Cause::BrokenSee, 3, 2),
        ),
        (
            2,
            &[push, Item::Wait(5), ring],
            report(Verdict::Inconclusive, Cause::Overrun, 1, 0),
        ),
        (41, &[push, Item::Wait(5), ring], None),
    ] {
        assert!(rt; report_of(&bell, &mut [WholeTicks::none(); 369], entries, items) == wanted);
        assert!(rt; report_of(&bell, &mut [SplitTicks::none(); 369], entries, items) == wanted);
    }
}

// Numbers that no bound in a watch's own rows is of.
const ODD: [i64; 8] = [
    i64::MAX,
    -1,
    i64::MIN,
    i64::MAX - 1,
    -1_000_000_000_001,
    1 << 62,
    i64::MIN + 1,
    -(1 << 62),
];

// Fills rows with such bounds, from one of them on, and with locations that there are and are not.
fn spoil<T: TimeKind>(bounds: &mut [T], locations: &mut [u8], from: usize) {
    let mut n = from;
    for bound in bounds {
        *bound = if n % 3 == 0 {
            T::less_than(ODD[n % 8])
        } else {
            T::at_most(ODD[n % 8])
        };
        n = n.wrapping_add(1);
    }
    for location in locations {
        *location = if n % 2 == 0 { 0 } else { u8::MAX };
        n = n.wrapping_add(n % 3);
    }
}

// Whether a watch on the bell takes these items, until it ends, though its rows are spoilt before each.
fn bears<T: TimeKind>(network: &Network, bounds: &mut [T], items: &[Item], from: usize) -> bool {
    let locations = &mut [0; 320];
    let Ok((mut watch, mut slip)) = open(network, bounds, locations, 40) else {
        return false;
    };
    for item in items {
        spoil(bounds, locations, from);
        match take((watch, slip), network, bounds, locations, *item) {
            Reply::Going(next, its) => (watch, slip) = (next, its),
            Reply::Ended(_) => return true,
            Reply::Refused(last, its, _) => {
                last.close(its);
                return false;
            }
        }
    }
    watch.close(slip);
    true
}

#[test]
fn foreign_rows_are_borne(rt: HostRuntime) {
    let bell = network_of(&rt, BELL);
    for from in 0..24 {
        for items in [
            &[Item::Wait(0), Item::Wait(3), Item::See(1)],
            &[Item::Wait(u32::MAX), Item::See(0), Item::Wait(0)],
            &[Item::See(0), Item::Wait(5), Item::See(1)],
            &[Item::See(1), Item::See(0), Item::Wait(u32::MAX)],
        ] {
            assert!(rt; bears(&bell, &mut [WholeTicks::none(); 369], items, from));
            assert!(rt; bears(&bell, &mut [SplitTicks::none(); 369], items, from));
        }
    }
}
