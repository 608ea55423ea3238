#![tactic(auto)]

ghost use Rattle.std.specs.Prelude.{IfSome};
ghost use Rattle.estimate.specs.Stores.{HasRoom};

use estimate::Store;
use monitor::{Followed, Reply, Slip, Watch, open};
use network::{Network, read_sheet};
use source::Recording;
use steps::side_of;
use time::{SplitTicks, TimeKind, WholeTicks};
use zones::{Ticks, close};

// For the benchmark: reads a sheet so many times into one place, and adds up the edges that the
// place holds after each.
#[unsafe(no_mangle)]
pub extern "C" fn read_sheet_rounds(bytes: &[u8], rounds: u32) -> u64 {
    let mut place = Network::smallest();
    let mut edges = 0u64;
    for _ in 0..rounds {
        let _ = read_sheet(bytes, &mut place);
        edges = edges.wrapping_add(place.edges().len() as u64);
    }
    edges
}

// Bounds that a closing tightens a good deal; zero from a clock to itself.
fn spread_out<T: TimeKind>(part: &mut [T], side: usize) {
    for (i, row) in part.chunks_exact_mut(side.max(1)).enumerate() {
        for (j, bound) in row.iter_mut().enumerate() {
            let far = ((i.wrapping_mul(17)).wrapping_add(j.wrapping_mul(29)) % 40) as i64;
            *bound = T::at_most(if i == j { 0 } else { 3 + far });
        }
    }
}

// Fills and closes a matrix of at most 10 clocks at the front of a row so many times, and counts how often it has points;
// 0 where the row is too short: C gets a number and no fault.
fn close_rounds<T: TimeKind>(row: &mut [T], side: usize, rounds: u32) -> u64 {
    if side > 10 {
        return 0;
    }
    let Some(part) = row.get_mut(..side * side) else {
        return 0;
    };
    let mut closed = 0u64;
    for _ in 0..rounds {
        spread_out(part, side);
        closed = closed.wrapping_add(u64::from(close(part, side)));
    }
    closed
}

// The rows are fixed, since C lends no memory here; a side and rounds are what C passes.
#[unsafe(no_mangle)]
pub extern "C" fn close_whole_rounds(side: usize, rounds: u32) -> u64 {
    close_rounds(&mut [WholeTicks::none(); 100], side, rounds)
}

#[unsafe(no_mangle)]
pub extern "C" fn close_split_rounds(side: usize, rounds: u32) -> u64 {
    close_rounds(&mut [SplitTicks::none(); 100], side, rounds)
}

// The most entries that a store has.
const ENTRIES: usize = 256;

// The bounds of so many entries of the most clocks, and of the work entry.
const ROW: usize = 100 * (ENTRIES + 1);

// The rows as a store of the most entries, with the work entry, where they have room for them.
fn store_over<'a, T: TimeKind>(
    bounds: &'a mut [T],
    locations: &'a mut [u8],
    network: &'a Network,
) -> Option<Store<'a, T>>
    ensures room { IfSome result (λ s. HasRoom s 256) }
{
    let side = side_of(network);
    if bounds.len() < side * side * (ENTRIES + 1) || locations.len() < 8 * ENTRIES {
        return None;
    }
    Some(Store {
        bounds,
        locations,
        network,
    })
}

// What is done from the start: it is grown, or it is made anew, since a see takes its place, and channel 0 is seen.
#[derive(Clone, Copy, Debug, PartialEq, Eq)]
enum Work {
    Growth,
    See,
}

// Does it at `w` ticks: how many entries there then are, none where an entry finds no place.
fn work_once<T: TimeKind>(store: &mut Store<'_, T>, work: Work, w: Ticks) -> u64
    requires room { HasRoom store.old 256 }
    ensures room { HasRoom store.new 256 }
{
    let used = match work {
        Work::Growth => store.grow(false, w, 1, ENTRIES),
        Work::See => {
            store.begin(ENTRIES);
            store.see(0, w, 1, ENTRIES)
        }
    };
    match used {
        Some(used) => used as u64,
        None => 0,
    }
}

// Reads a sheet and does the work from its start so many times, and adds up the entries.
fn work_rounds<T: TimeKind>(
    bounds: &mut [T],
    work: Work,
    sheet: &[u8],
    w: u64,
    rounds: u32,
) -> u64 {
    let mut network = Network::smallest();
    if read_sheet(sheet, &mut network).is_err() {
        return 0;
    }
    let Some(w) = Ticks::new(w) else {
        return 0;
    };
    let mut locations = [0; 2048];
    let Some(mut store) = store_over(bounds, &mut locations, &network) else {
        return 0;
    };
    store.begin(ENTRIES);
    let mut entries = 0u64;
    for _ in 0..rounds {
        entries = entries.wrapping_add(work_once(&mut store, work, w));
    }
    entries
}

#[unsafe(no_mangle)]
pub extern "C" fn grow_whole_rounds(sheet: &[u8], w: u64, rounds: u32) -> u64 {
    work_rounds(
        &mut [WholeTicks::none(); ROW],
        Work::Growth,
        sheet,
        w,
        rounds,
    )
}

#[unsafe(no_mangle)]
pub extern "C" fn grow_split_rounds(sheet: &[u8], w: u64, rounds: u32) -> u64 {
    work_rounds(
        &mut [SplitTicks::none(); ROW],
        Work::Growth,
        sheet,
        w,
        rounds,
    )
}

#[unsafe(no_mangle)]
pub extern "C" fn see_whole_rounds(sheet: &[u8], w: u64, rounds: u32) -> u64 {
    work_rounds(&mut [WholeTicks::none(); ROW], Work::See, sheet, w, rounds)
}

#[unsafe(no_mangle)]
pub extern "C" fn see_split_rounds(sheet: &[u8], w: u64, rounds: u32) -> u64 {
    work_rounds(&mut [SplitTicks::none(); ROW], Work::See, sheet, w, rounds)
}

// So many waits of a tick, and then the watch is closed, if it has not ended: the items that it took.
fn waited<T: TimeKind>(
    watch: Watch,
    slip: Slip,
    network: &Network,
    bounds: &mut [T],
    locations: &mut [u8],
    waits: u32,
) -> u64 {
    let mut watch = watch;
    let mut slip = slip;
    for _ in 0..waits {
        match watch.wait(slip, network, bounds, locations, 1) {
            Reply::Going(w, s) => {
                watch = w;
                slip = s;
            }
            Reply::Ended(report) => return report.count,
            Reply::Refused(w, s, _) => return w.close(s).count,
        }
    }
    watch.close(slip).count
}

// Reads a sheet and opens a watch over its network, which waits so many times: the items.
fn wait_rounds<T: TimeKind>(bounds: &mut [T], sheet: &[u8], waits: u32) -> u64 {
    let mut network = Network::smallest();
    if read_sheet(sheet, &mut network).is_err() {
        return 0;
    }
    let mut locations = [0; 2048];
    match open(&network, bounds, &mut locations, ENTRIES) {
        Ok((watch, slip)) => waited(watch, slip, &network, bounds, &mut locations, waits),
        Err(_) => 0,
    }
}

#[unsafe(no_mangle)]
pub extern "C" fn wait_whole_rounds(sheet: &[u8], waits: u32) -> u64 {
    wait_rounds(&mut [WholeTicks::none(); ROW], sheet, waits)
}

#[unsafe(no_mangle)]
pub extern "C" fn wait_split_rounds(sheet: &[u8], waits: u32) -> u64 {
    wait_rounds(&mut [SplitTicks::none(); ROW], sheet, waits)
}

// Opens a watch and gives it the recording: the items that it took.
fn followed<T: TimeKind>(
    network: &Network,
    bounds: &mut [T],
    locations: &mut [u8],
    recording: &[u8],
) -> u64 {
    let Ok((watch, slip)) = open(network, bounds, locations, ENTRIES) else {
        return 0;
    };
    match watch.follow(slip, network, bounds, locations, Recording::new(recording)) {
        Followed::Ended(report) => report.count,
        Followed::Stopped(report, _) => report.count,
        Followed::Refused(watch, slip, _, _) => watch.close(slip).count,
    }
}

// Reads a sheet and follows the recording over its network so many times, and adds up the items.
fn follow_rounds<T: TimeKind>(
    bounds: &mut [T],
    sheet: &[u8],
    recording: &[u8],
    rounds: u32,
) -> u64 {
    let mut network = Network::smallest();
    if read_sheet(sheet, &mut network).is_err() {
        return 0;
    }
    let mut locations = [0; 2048];
    let mut items = 0u64;
    for _ in 0..rounds {
        items = items.wrapping_add(followed(&network, bounds, &mut locations, recording));
    }
    items
}

#[unsafe(no_mangle)]
pub extern "C" fn follow_whole_rounds(sheet: &[u8], recording: &[u8], rounds: u32) -> u64 {
    follow_rounds(&mut [WholeTicks::none(); ROW], sheet, recording, rounds)
}

#[unsafe(no_mangle)]
pub extern "C" fn follow_split_rounds(sheet: &[u8], recording: &[u8], rounds: u32) -> u64 {
    follow_rounds(&mut [SplitTicks::none(); ROW], sheet, recording, rounds)
}
