// A third kind of time, to see that the trait can be met by a type that it was not written for.
#![tactic(auto)]

ghost use Rattle.timetest.specs.Limit.{limit_had, limit_admits, limit_reach};
ghost use Rattle.timetest.specs.LimitLaws.{limit_laws};

use time::TimeKind;

// A bound in whole ticks, by the last of them that it admits, if there is one.
#[derive(Clone, Copy, Debug, PartialEq, Eq)]
pub struct Limit {
    pub last: Option<i64>,
}

impl TimeKind for Limit {
    ghost had = { limit_had };

    ghost admits = { limit_admits };

    ghost reach = { limit_reach };

    ghost laws = { limit_laws };

    fn at_most(c: i64) -> Limit {
        Limit { last: Some(c) }
    }

    fn less_than(c: i64) -> Limit {
        Limit {
            last: Some(c.wrapping_sub(1)),
        }
    }

    fn none() -> Limit {
        Limit { last: None }
    }

    fn sum(self, other: Limit) -> Limit {
        Limit {
            last: self.last.zip(other.last).map(|(a, b)| a.wrapping_add(b)),
        }
    }

    fn tighter(self, other: Limit) -> Limit {
        if other.covers(self) { self } else { other }
    }

    fn covers(self, other: Limit) -> bool {
        self.last.is_none_or(|a| other.last.is_some_and(|b| b <= a))
    }

    fn admits_zero(self) -> bool {
        self.last.is_none_or(|c| c >= 0)
    }

    fn last_tick(self) -> Option<i64> {
        self.last
    }
}

#[cfg(test)]
mod tests {
    use super::*;
    use std::process::Abort;
    use time::{SplitTicks, WholeTicks};

    fn ends_at<K: TimeKind>(bound: K, tick: i64) -> bool {
        bound.last_tick() == Some(tick)
    }

    // By `covers`, since a kind of time need have no equality.
    fn same<K: TimeKind>(a: K, b: K) -> bool {
        a.covers(b) && b.covers(a)
    }

    // What holds in every kind of time.
    fn ticks<K: TimeKind>(rt: &impl Abort) {
        assert!(rt; ends_at(K::at_most(-3), -3));
        assert!(rt; ends_at(K::less_than(-3), -4));
        assert!(rt; ends_at(K::less_than(4).sum(K::at_most(3)), 6));
        assert!(rt; ends_at(K::at_most(4).tighter(K::less_than(4)), 3));
        assert!(rt; ends_at(K::none().tighter(K::at_most(9)), 9));
        assert!(rt; !ends_at(K::none().sum(K::at_most(-1)), -1));
        assert!(rt; K::none().covers(K::at_most(5)));
        assert!(rt; !K::at_most(5).covers(K::none()));
        assert!(rt; K::at_most(0).admits_zero());
        assert!(rt; !K::less_than(0).admits_zero());
    }

    // Whether less than 4 is at most 3, as in kinds without halves.
    fn has_no_halves<K: TimeKind>() -> bool {
        same(K::less_than(4), K::at_most(3))
    }

    #[test]
    fn whole_ticks(rt: HostRuntime) {
        ticks::<WholeTicks>(&rt);
        assert!(rt; has_no_halves::<WholeTicks>());
    }

    #[test]
    fn split_ticks(rt: HostRuntime) {
        ticks::<SplitTicks>(&rt);
        assert!(rt; !SplitTicks::at_most(3).covers(SplitTicks::less_than(4)));
    }

    #[test]
    fn limits(rt: HostRuntime) {
        ticks::<Limit>(&rt);
        assert!(rt; has_no_halves::<Limit>());
    }
}
