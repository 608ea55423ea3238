// A shift: an open watch and its slip, beside the rows that it is over.

use monitor::{Reply, Slip, Watch, open};
use network::Network;
use report::{Refusal, Report};
use source::Item;
use std::alloc::{AllocError, Global};
use time::TimeKind;

// Rows for a watch, in either kind of time.
#[derive(Drop)]
pub(crate) struct Rows<T> {
    bounds: Vec<T>,
    locations: Vec<u8>,
}

impl<T: TimeKind> Rows<T> {
    // Rows as long as a watch of so many entries wants.
    pub(crate) fn new(alloc: Global, network: &Network, entries: u8) -> Result<Self, AllocError> {
        let entries = usize::from(entries);
        let side = usize::from(network.clocks()) + 2;
        Ok(Rows {
            bounds: vec![in alloc; T::none(); side * side * (entries + 1)]?,
            locations: vec![in alloc; 0; 8 * entries]?,
        })
    }
}

// The rows are generic state: the slip stands beside them, and goes along with them from call to call.
#[derive(Drop)]
pub(crate) struct Shift<R> {
    watch: Watch,
    slip: Slip,
    rows: R,
}

// How a shift stands: it goes on, or is over, by its report or by a call that was refused.
pub(crate) enum Course<R> {
    Going(Shift<R>),
    Ended(Report),
    Refused(Refusal),
}

impl<R: Drop> Shift<R> {
    // Nothing may let a shift go but this: its slip is to be spent.
    pub(crate) fn close(self) -> Report {
        let Shift {
            watch,
            slip,
            rows: _,
        } = self;
        watch.close(slip)
    }
}

impl<T: TimeKind> Shift<Rows<T>> {
    pub(crate) fn open(network: &Network, mut rows: Rows<T>, entries: u8) -> Course<Rows<T>> {
        let entries = usize::from(entries);
        match open(network, &mut rows.bounds, &mut rows.locations, entries) {
            Ok((watch, slip)) => Course::Going(Shift { watch, slip, rows }),
            Err(fault) => Course::Refused(fault.into()),
        }
    }

    fn take(self, network: &Network, item: Item) -> Course<Rows<T>> {
        let Shift {
            watch,
            slip,
            mut rows,
        } = self;
        let Rows { bounds, locations } = &mut rows;
        let reply = match item {
            Item::Wait(ticks) => watch.wait(slip, network, bounds, locations, ticks),
            Item::See(channel) => watch.see(slip, network, bounds, locations, channel),
        };
        match reply {
            Reply::Going(watch, slip) => Course::Going(Shift { watch, slip, rows }),
            Reply::Ended(report) => Course::Ended(report),
            Reply::Refused(watch, slip, fault) => {
                watch.close(slip);
                Course::Refused(fault.into())
            }
        }
    }
}

impl<T: TimeKind> Course<Rows<T>> {
    // After one item more.
    pub(crate) fn after(self, network: &Network, item: Item) -> Self {
        match self {
            Course::Going(shift) => shift.take(network, item),
            over => over,
        }
    }
}
