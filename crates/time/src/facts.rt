// What shows that the meaning of bounds is neither empty nor everything, and that the kinds differ: so the calls
// for one kind and for the other are not one generic call, since they promise different things.
ghost use Rattle.std.specs.Prelude.{◌≡◌, true, pos, ◌-ℤ◌};
ghost use Rattle.time.specs.Grains.{Grain};
ghost use Rattle.time.specs.Differences.{AtMost, LessThan, Same, Sum, Last, MadeRange};
ghost use Rattle.time.specs.Laws.{BetweenAtMultiples};
ghost use Rattle.time.specs.Whole.{whole_had, whole_admits};
ghost use Rattle.time.specs.Split.{split_had, split_admits};

use crate::{SplitTicks, TimeKind, WholeTicks};

// At most c admits c, and not c + 1.
pub fn at_most_ends_at<K: TimeKind>(c: i64) -> K
    ensures last_is_c { MadeRange c → Last (K.TimeKind.admits result) c }
    ensures is_at_most { MadeRange c → Same K.TimeKind.had (K.TimeKind.admits result) (AtMost c) }
{
    K::at_most(c)
}

// Less than c admits c - 1, and not c.
pub fn less_than_ends_before<K: TimeKind>(c: i64) -> K
    ensures admits_the_tick_before { MadeRange c → K.TimeKind.admits result 1 (c -ℤ pos 1) }
    ensures not_c { MadeRange c → K.TimeKind.admits result 1 c → ⊥ }
    ensures is_less_than { MadeRange c → Same K.TimeKind.had (K.TimeKind.admits result) (LessThan c) }
{
    K::less_than(c)
}

// Less than 4 admits, in split ticks, three ticks and a half, and not four ticks.
pub fn half_a_tick_before_four() -> SplitTicks
    ensures two_is_a_grain { Grain split_had 2 }
    ensures admits_seven_halves { split_admits result 2 (pos 7) }
    ensures not_eight_halves { split_admits result 2 (pos 8) → ⊥ }
{
    SplitTicks::less_than(4)
}

// Whole ticks have no halves: less than 4 is at most 3.
pub fn no_half_before_four() -> WholeTicks
    ensures two_is_no_grain { Grain whole_had 2 → ⊥ }
    ensures at_most_three { Same whole_had (whole_admits result) (AtMost (pos 3)) }
{
    WholeTicks::less_than(4)
}

// Less than 4 and at most 3 add up, in split ticks, to less than 7.
pub fn split_sum_is_less_than_seven() -> SplitTicks
    ensures less_than_seven { Same split_had (split_admits result) (LessThan (pos 7)) }
    ensures of_the_sum { Same split_had (split_admits result) (Sum split_had (LessThan (pos 4)) (AtMost (pos 3))) }
{
    SplitTicks::less_than(4).sum(SplitTicks::at_most(3))
}

// The same two add up, in whole ticks, to at most 6.
pub fn whole_sum_is_at_most_six() -> WholeTicks
    ensures at_most_six { Same whole_had (whole_admits result) (AtMost (pos 6)) }
    ensures of_the_sum { Same whole_had (whole_admits result) (Sum whole_had (LessThan (pos 4)) (AtMost (pos 3))) }
{
    WholeTicks::less_than(4).sum(WholeTicks::at_most(3))
}

// Bounds that leave a moment pair by pair, each pair at a multiple of its own, leave one together.
pub fn between_at_multiples_stands<K: TimeKind>() -> bool
    ensures answers_true { result ≡ true }
    ensures stands { BetweenAtMultiples K.TimeKind.had K.TimeKind.admits }
{
    true
}
