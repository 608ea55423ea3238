// A follow: a watch given the items of a trace source, one after another.
ghost use Rattle.std.specs.Prelude.{◌≡◌};
ghost use Rattle.network.specs.Networks.{model_of};
ghost use Rattle.monitor.specs.Following.{Takes, stopping, Gives, Follows, meets_end, given_of, answer_of, HandsBack, GivesFault, CarriesFault};

use crate::watch::has_rows;
use crate::{Reply, Slip, Watch, WatchFault};
use network::Network;
use report::{Cause, Report, Verdict};
use source::{Item, TraceSource};
use time::TimeKind;

// Why a follow was stopped: its source has a fault, or an item is refused.
#[derive(Debug, Drop, PartialEq, Eq)]
pub enum Stop<F> {
    Source(F),
    Item(WatchFault),
}

// What a follow comes to.
#[derive(Drop)]
pub enum Followed<S, F> {
    // The watch was closed at the source's end, or it broke or overran.
    Ended(Report),
    // The source's fault, or an item that is refused, has ended the watch.
    Stopped(Report, Stop<F>),
    // The rows are too short; watch, slip and source are as they were.
    Refused(Watch, Slip, S, WatchFault),
}

impl Watch {
    // Gives an item to wait or to see.
    fn take<T: TimeKind>(
        self,
        slip: Slip,
        network: &Network,
        bounds: &mut [T],
        locations: &mut [u8],
        item: Item,
    ) -> Reply
        ensures takes { (d : T) → Takes T.had T.admits T.reach (model_of network.now) d self slip bounds.old locations.old item result bounds.new locations.new }
    {
        match item {
            Item::Wait(ticks) => self.wait(slip, network, bounds, locations, ticks),
            Item::See(channel) => self.see(slip, network, bounds, locations, channel),
        }
    }

    // The watch ends at its source's fault, or at an item that is refused.
    fn stop(self, slip: Slip) -> Report
        ensures stops { result ≡ stopping self }
    {
        slip.spend();
        Report {
            verdict: Verdict::Inconclusive,
            cause: Cause::Refused,
            count: self.items,
            tick: self.tick,
        }
    }

    // Gives a source's items in order, and closes at its end.
    fn give<T: TimeKind, S: TraceSource + Drop>(
        self,
        slip: Slip,
        network: &Network,
        bounds: &mut [T],
        locations: &mut [u8],
        mut source: S,
    ) -> Result<Report, (Report, Stop<S::Fault>)>
        ensures gives { (d : T) → Gives T.had T.admits T.reach (model_of network.now) d (meets_end (S.TraceSource.ending source)) (given_of result) bounds.new locations.new self slip bounds.old locations.old (S.TraceSource.items source) }
        ensures whole_fault { GivesFault (S.TraceSource.ending source) result }
    {
        let mut watch = self;
        let mut slip = slip;
        loop {
            match source.next() {
                Ok(Some(item)) => match watch.take(slip, network, bounds, locations, item) {
                    Reply::Going(w, s) => {
                        watch = w;
                        slip = s;
                    }
                    Reply::Ended(report) => return Ok(report),
                    Reply::Refused(w, s, fault) => return Err((w.stop(s), Stop::Item(fault))),
                },
                Ok(None) => return Ok(watch.close(slip)),
                Err(fault) => return Err((watch.stop(slip), Stop::Source(fault))),
            }
        }
    }

    // Gives a source's items to wait and see, until its end, where the watch is closed, or its fault,
    // an item that is refused, a break or an overrun.
    pub fn follow<T: TimeKind, S: TraceSource + Drop>(
        self,
        slip: Slip,
        network: &Network,
        bounds: &mut [T],
        locations: &mut [u8],
        source: S,
    ) -> Followed<S, S::Fault>
        ensures follows { (d : T) → Follows T.had T.admits T.reach (model_of network.now) d self slip bounds.old locations.old (S.TraceSource.items source) (meets_end (S.TraceSource.ending source)) (answer_of result) bounds.new locations.new }
        ensures back { HandsBack source result }
        ensures whole_fault { CarriesFault (S.TraceSource.ending source) result }
    {
        if !has_rows(network, bounds, locations, self.entries) {
            let items = self.items;
            return Followed::Refused(self, slip, source, WatchFault::Rows(items));
        }
        match self.give(slip, network, bounds, locations, source) {
            Ok(report) => Followed::Ended(report),
            Err((report, stop)) => Followed::Stopped(report, stop),
        }
    }
}
