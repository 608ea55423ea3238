// The calls of a watch.
ghost use Rattle.std.specs.Prelude.{◌≡◌, true, IfSome, IfNone, ◌+◌, ◌<◌, ◌≤◌};
ghost use Rattle.time.specs.Differences.{Tells};
ghost use Rattle.network.specs.Networks.{model_of};
ghost use Rattle.runs.specs.Moves.{channel_at};
ghost use Rattle.estimate.specs.Stores.{network_in, HasRoom, SameStore, LeftAlone};
ghost use Rattle.monitor.specs.declared.watch.Reply.TheVariants.{Ended};
ghost use Rattle.monitor.specs.Rows.{HasRows};
ghost use Rattle.monitor.specs.Replies.{most, overrunning, see_verdict};
ghost use Rattle.monitor.specs.Calls.{Visible, Opens, Waits, WaitIn, Sees, SeeIn, Closes, WaitDetermined, SeeDetermined};
ghost use Rattle.monitor.specs.Examples.{ExampleShifts};
ghost use Rattle.monitor.specs.Shifts.{VerdictsByRuns, WordsDecide, FitsByCause, CountsItems};

use crate::WatchFault;
use crate::growing::{Waited, wait};
use estimate::Store;
use model::ChannelKind;
use network::Network;
use report::{Cause, Report, Verdict};
use steps::side_of;
use time::TimeKind;
use zones::Ticks;

// The most items that a watch may take, and the most ticks that it may reach.
const MOST: u64 = 1_000_000_000_000;

// The most entries that a store may have.
const MOST_ENTRIES: usize = 256;

// A watch that is open: how many entries its rows may hold, how many its estimate has, the tick that
// it has reached, how many ticks have passed since the last see, and how many items it has taken. Plain
// numbers, so that the rows stay the caller's; neither copied nor cloned, so that a call takes the one
// there is.
#[derive(Drop)]
pub struct Watch {
    pub(crate) entries: usize,
    estimate: usize,
    pub(crate) tick: u64,
    since: u64,
    pub(crate) items: u64,
}

// What an open watch comes with. It is spent where the watch ends, and may be dropped only then, so
// that no watch is left open.
pub struct Slip {
    spent: bool,
}

impl Drop for Slip {
    fn drop(self)
        requires spent { self.spent ≡ true }
    {
        let Slip { spent: _ } = self;
    }
}

impl Slip {
    pub(crate) fn spend(self) {
        let mut slip = self;
        slip.spent = true;
    }
}

// What a wait or a see answers: the watch goes on; it has ended, by a break or since the store has too
// few places; or the call is refused, and has changed nothing.
#[derive(Drop)]
pub enum Reply {
    Going(Watch, Slip),
    Ended(Report),
    Refused(Watch, Slip, WatchFault),
}

// Whether so many entries, and a work entry of bounds, can be had in these rows.
pub(crate) fn has_rows<T>(network: &Network, bounds: &[T], locations: &[u8], entries: usize) -> bool
    ensures tells { Tells result (HasRows (model_of network.now) entries bounds.now locations.now) }
{
    if !(1..=MOST_ENTRIES).contains(&entries) {
        return false;
    }
    let side = side_of(network);
    side * side * (entries + 1) <= bounds.len() && 8 * entries <= locations.len()
}

// Opens a watch over rows for so many entries: the network is at its start. What is said of every
// shift stands here, since every shift begins here.
pub fn open<T: TimeKind>(
    network: &Network,
    bounds: &mut [T],
    locations: &mut [u8],
    entries: usize,
) -> Result<(Watch, Slip), WatchFault>
    ensures opens { (d : T) → Opens T.had T.admits T.reach (model_of network.now) d bounds.old locations.old entries result bounds.new locations.new }
    ensures verdicts_by_runs { VerdictsByRuns T.had T.admits T.reach }
    ensures words_decide { WordsDecide T.had T.admits T.reach }
    ensures fits_by_cause { FitsByCause T.had T.admits T.reach }
    ensures counts_items { CountsItems T.had T.admits T.reach }
{
    if !has_rows(network, bounds, locations, entries) {
        return Err(WatchFault::Rows(0));
    }
    Store {
        bounds,
        locations,
        network,
    }
    .begin(entries);
    let watch = Watch {
        entries,
        estimate: 1,
        tick: 0,
        since: 0,
        items: 0,
    };
    Ok((watch, Slip { spent: false }))
}

// So many ticks more, if a watch may reach them.
fn later(tick: u64, ticks: u32) -> Option<Ticks>
    ensures later { IfSome result (λ t. (t.count ≡ tick + ticks) × (t.count ≤ most)) }
    ensures none_only_above_the_most { IfNone result (most < tick + ticks) }
{
    Ticks::new(tick.checked_add(u64::from(ticks))?)
}

// Whether a see of the channel is one of an input or an output, and then its number as edges have it.
fn seen_channel(network: &Network, channel: u32) -> Option<(u8, ChannelKind)>
    ensures seen { IfSome result (λ c. (c.0 ≡ channel) × (c.1 ≡ channel_at (model_of network.now) channel) × Visible (model_of network.now) channel) }
    ensures none_only_unseen { IfNone result (¬ (Visible (model_of network.now) channel)) }
{
    let k = u8::try_from(channel).ok()?;
    let kind = *network.channels().get(usize::from(k))?;
    match kind {
        ChannelKind::Hidden => None,
        ChannelKind::Input | ChannelKind::Output => Some((k, kind)),
    }
}

// What a broken see says of the drive, which gives the outputs.
fn verdict_of(kind: ChannelKind) -> Verdict
    ensures verdict { result ≡ see_verdict kind }
{
    match kind {
        ChannelKind::Output => Verdict::Fail,
        ChannelKind::Input | ChannelKind::Hidden => Verdict::Inconclusive,
    }
}

impl Watch {
    // The watch ends at an item, which counts.
    fn end(self, slip: Slip, verdict: Verdict, cause: Cause, tick: u64) -> Reply
        requires below { self.items < most }
        ensures ended { result ≡ Ended (record { verdict = verdict; cause = cause; count = self.items + 1; tick = tick }) }
    {
        slip.spend();
        Reply::Ended(Report {
            verdict,
            cause,
            count: self.items + 1,
            tick,
        })
    }

    // The store has too few places.
    fn overrun(self, slip: Slip) -> Reply
        requires below { self.items < most }
        ensures ended { result ≡ Ended (overrunning self) }
    {
        let tick = self.tick;
        self.end(slip, Verdict::Inconclusive, Cause::Overrun, tick)
    }

    // A wait that is not refused. On rows that are not the watch's own its numbers may not fit; there
    // is no telling then.
    fn wait_in<T: TimeKind>(self, slip: Slip, store: &mut Store<'_, T>, ticks: u32) -> Reply
        requires room { HasRoom store.old self.entries }
        requires range { self.tick + ticks ≤ most }
        requires below { self.items < most }
        ensures taken { WaitIn T.had T.admits T.reach self slip ticks store.old result store.new }
        ensures left_alone { LeftAlone self.entries self.estimate store.old store.new }
        ensures same_store { SameStore store.old store.new }
    {
        let Some(w) = later(self.since, ticks) else {
            return self.overrun(slip);
        };
        if self.estimate > self.entries {
            return self.overrun(slip);
        }
        match wait(store, w, self.estimate, self.entries) {
            Waited::Reached => Reply::Going(
                Watch {
                    entries: self.entries,
                    estimate: self.estimate,
                    tick: self.tick + u64::from(ticks),
                    since: w.count(),
                    items: self.items + 1,
                },
                slip,
            ),
            Waited::Broken { at, loosely } => {
                let tick = self.tick.saturating_sub(self.since) + at;
                let verdict = if loosely {
                    Verdict::Fail
                } else {
                    Verdict::Inconclusive
                };
                self.end(slip, verdict, Cause::BrokenWait, tick)
            }
            Waited::Overrun => self.overrun(slip),
        }
    }

    // A see that is not refused, of a channel of this kind.
    fn see_in<T: TimeKind>(
        self,
        slip: Slip,
        store: &mut Store<'_, T>,
        channel: u8,
        kind: ChannelKind,
    ) -> Reply
        requires room { HasRoom store.old self.entries }
        requires below { self.items < most }
        ensures taken { (kind ≡ channel_at (network_in store.old) channel) → SeeIn T.had T.admits T.reach self slip channel store.old result store.new }
        ensures left_alone { LeftAlone self.entries 0 store.old store.new }
        ensures same_store { SameStore store.old store.new }
    {
        let Some(since) = Ticks::new(self.since) else {
            return self.overrun(slip);
        };
        if self.estimate > self.entries {
            return self.overrun(slip);
        }
        match store.see(channel, since, self.estimate, self.entries) {
            None => self.overrun(slip),
            Some(0) => {
                let tick = self.tick;
                self.end(slip, verdict_of(kind), Cause::BrokenSee, tick)
            }
            Some(count) => Reply::Going(
                Watch {
                    entries: self.entries,
                    estimate: count,
                    tick: self.tick,
                    since: 0,
                    items: self.items + 1,
                },
                slip,
            ),
        }
    }

    // So many ticks pass.
    pub fn wait<T: TimeKind>(
        self,
        slip: Slip,
        network: &Network,
        bounds: &mut [T],
        locations: &mut [u8],
        ticks: u32,
    ) -> Reply
        ensures one_reply { WaitDetermined T.had T.admits T.reach (model_of network.now) self slip ticks }
        ensures waits { (d : T) → Waits T.had T.admits T.reach (model_of network.now) d self slip bounds.old locations.old ticks result bounds.new locations.new }
    {
        let items = self.items;
        if !has_rows(network, bounds, locations, self.entries) {
            return Reply::Refused(self, slip, WatchFault::Rows(items));
        }
        if later(self.tick, ticks).is_none() || items >= MOST {
            return Reply::Refused(self, slip, WatchFault::Range(items));
        }
        let mut store = Store {
            bounds,
            locations,
            network,
        };
        self.wait_in(slip, &mut store, ticks)
    }

    // A move is seen on the channel.
    pub fn see<T: TimeKind>(
        self,
        slip: Slip,
        network: &Network,
        bounds: &mut [T],
        locations: &mut [u8],
        channel: u32,
    ) -> Reply
        ensures one_reply { SeeDetermined T.had T.admits T.reach (model_of network.now) self slip channel }
        ensures sees { (d : T) → Sees T.had T.admits T.reach (model_of network.now) d self slip bounds.old locations.old channel result bounds.new locations.new }
    {
        let items = self.items;
        if !has_rows(network, bounds, locations, self.entries) {
            return Reply::Refused(self, slip, WatchFault::Rows(items));
        }
        let Some((k, kind)) = seen_channel(network, channel) else {
            return Reply::Refused(self, slip, WatchFault::Channel(items));
        };
        if items >= MOST {
            return Reply::Refused(self, slip, WatchFault::Range(items));
        }
        let mut store = Store {
            bounds,
            locations,
            network,
        };
        self.see_in(slip, &mut store, k, kind)
    }

    // The watch ends, and nothing has broken it.
    pub fn close(self, slip: Slip) -> Report
        ensures closes { Closes self result }
        ensures example_shifts { ExampleShifts }
    {
        slip.spend();
        Report {
            verdict: Verdict::Pass,
            cause: Cause::Closed,
            count: self.items,
            tick: self.tick,
        }
    }
}
