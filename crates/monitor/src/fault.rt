// Why a call of a watch is refused.
ghost use Rattle.monitor.specs.Replies.{Refuses};

use report::{Document, Refusal};

// Each holds how many items the watch has taken.
#[derive(Clone, Copy, Debug, PartialEq, Eq)]
pub enum WatchFault {
    // The rows are too short for the entries and the work entry, or so many entries are not to be had.
    Rows(u64),
    // The see names no channel, or a hidden one.
    Channel(u64),
    // The ticks or the items would come above what a watch may reach.
    Range(u64),
}

impl From<WatchFault> for Refusal {
    ghost from_gives = { Refuses };

    fn from(fault: WatchFault) -> Refusal {
        let (number, place) = match fault {
            WatchFault::Rows(items) => (8, items),
            WatchFault::Channel(items) => (9, items),
            WatchFault::Range(items) => (10, items),
        };
        Refusal {
            document: Document::Watch,
            number,
            place,
        }
    }
}
