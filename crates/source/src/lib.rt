#![tactic(auto)]

ghost use Rattle.std.specs.Prelude.{◌≡◌, List, Result};
ghost use Rattle.source.specs.declared.Item.{Item};
ghost use Rattle.source.specs.Steps.{next_of, rest_of};

mod queued;
mod recorded;

pub use queued::Queue;
pub use recorded::{Recording, RecordingFault};

// One item of a trace.
#[derive(Clone, Copy, Debug, PartialEq, Eq)]
pub enum Item {
    // So many ticks pass.
    Wait(u32),
    // A move is seen on this channel.
    See(u32),
}

// What gives a trace, item by item. With items to come, `next` answers the first and drops it;
// with none to come it answers the ending, no item or a fault, and what is to come stays as it is.
pub trait TraceSource {
    // What can go wrong with this source; `Infallible`, if nothing can.
    type Fault: Drop;

    // The items to come.
    ghost items: { Self → List Item };

    // The ending behind them: the end, or the fault.
    ghost ending: { Self → Result (Unit {0}) Self.Fault };

    fn next(&mut self) -> Result<Option<Item>, Self::Fault>
        ensures answer { result ≡ next_of (items self.old) (ending self.old) }
        ensures rest { items self.new ≡ rest_of (items self.old) }
        ensures ending { ending self.new ≡ ending self.old };
}

#[cfg(test)]
mod tests {
    use super::*;
    use wire::ByteFault;

    #[test]
    fn a_recording_to_its_end(rt: HostRuntime) {
        let mut recording = Recording::new(&[1, 0, 0, 4, 1, 1, 2]);
        assert!(rt; recording.next() == Ok(Some(Item::See(0))));
        assert!(rt; recording.next() == Ok(Some(Item::Wait(4))));
        assert!(rt; recording.next() == Ok(Some(Item::See(1))));
        assert!(rt; recording.next() == Ok(None));
        assert!(rt; recording.position() == 6);
    }

    #[test]
    fn a_recording_that_is_cut(rt: HostRuntime) {
        let mut recording = Recording::new(&[0, 5, 1]);
        assert!(rt; recording.next() == Ok(Some(Item::Wait(5))));
        assert!(rt; recording.next() == Err(RecordingFault::Byte(ByteFault::Ends(3))));
    }

    #[test]
    fn a_byte_behind_the_end(rt: HostRuntime) {
        let mut recording = Recording::new(&[2, 0]);
        assert!(rt; recording.next() == Err(RecordingFault::LeftOver(1)));
    }

    #[test]
    fn a_queue_to_its_end(rt: HostRuntime) {
        let mut queue = Queue::new(&[Item::Wait(3), Item::See(0)]);
        assert!(rt; queue.next() == Ok(Some(Item::Wait(3))));
        assert!(rt; queue.next() == Ok(Some(Item::See(0))));
        assert!(rt; queue.next() == Ok(None));
    }
}
