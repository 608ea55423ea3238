// Zones run on numbers, in both kinds of time: one clock (index 1) and the elapsed clock (index 2).
#![tactic(auto)]

ghost use Rattle.std.specs.Prelude.{◌≡◌, ◌<◌};

#[cfg(test)]
mod tests {
    use model::{Condition, Limit};
    use time::{SplitTicks, TimeKind, WholeTicks};
    use zones::*;

    const BELOW_FOUR: [Limit; 1] = [Limit {
        clock: 1,
        strict: true,
        ticks: 4,
    }];

    const ABOVE_THREE: [Condition; 1] = [Condition {
        left: 0,
        right: 1,
        strict: true,
        ticks: -3,
    }];

    // Time passes from zero while the clock is less than 4.
    fn below_four<T: TimeKind>(zone: &mut ZoneMut<'_, T>)
        requires { 1 < zone.old.side }
        ensures { zone.new.side ≡ zone.old.side }
    {
        zone.start();
        zone.delay();
        zone.keep_limits(&BELOW_FOUR);
    }

    // Whether it is then at `w` ticks.
    fn reaches<T: TimeKind>(part: &mut [T; 9], w: u64) -> Option<bool> {
        let mut zone = ZoneMut::over(part, 3);
        below_four(&mut zone);
        zone.elapsed_at_most(Ticks::new(10)?);
        let w = Ticks::new(w)?;
        Some(zone.close_column(0) && zone.seen().elapsed_at(w))
    }

    // Whether time passes 3 before it reaches 4.
    fn passes_three<T: TimeKind>(part: &mut [T; 9]) -> bool {
        let mut zone = ZoneMut::over(part, 3);
        below_four(&mut zone);
        zone.close() && zone.meet_conditions(&ABOVE_THREE)
    }

    #[test]
    fn limits_stop_time(rt: HostRuntime) {
        assert!(rt; reaches(&mut [WholeTicks::none(); 9], 3) == Some(true));
        assert!(rt; reaches(&mut [WholeTicks::none(); 9], 4) == Some(false));
        assert!(rt; reaches(&mut [SplitTicks::none(); 9], 3) == Some(true));
        assert!(rt; reaches(&mut [SplitTicks::none(); 9], 4) == Some(false));
    }

    #[test]
    fn only_split_ticks_pass_between(rt: HostRuntime) {
        assert!(rt; !passes_three(&mut [WholeTicks::none(); 9]));
        assert!(rt; passes_three(&mut [SplitTicks::none(); 9]));
    }

    #[test]
    fn a_reset_keeps_the_elapsed_clock(rt: HostRuntime) {
        let Some(seven) = Ticks::new(7) else {
            return assert!(rt; false);
        };
        let mut part = [WholeTicks::none(); 9];
        let mut zone = ZoneMut::over(&mut part, 3);
        zone.start();
        zone.delay();
        assert!(rt; zone.close_column(0));
        assert!(rt; zone.elapsed_exactly(seven));
        let whole = part;
        let before = Zone::over(&whole, 3);
        let mut zone = ZoneMut::over(&mut part, 3);
        zone.reset(1);
        assert!(rt; zone.seen().elapsed_at(seven));
        assert!(rt; !zone.seen().inside(&before));
        assert!(rt; before.inside(&before));
        assert!(rt; zone.seen().last_elapsed() == Some(7));
    }

    #[test]
    fn the_elapsed_clock_of_eight_clocks_is_reset(rt: HostRuntime) {
        let (Some(zero), Some(seven)) = (Ticks::new(0), Ticks::new(7)) else {
            return assert!(rt; false);
        };
        let mut part = [WholeTicks::none(); 100];
        let mut zone = ZoneMut::over(&mut part, 10);
        zone.start();
        zone.delay();
        assert!(rt; zone.close_column(0));
        assert!(rt; zone.elapsed_exactly(seven));
        zone.reset(256);
        assert!(rt; zone.seen().last_elapsed() == Some(0));
        assert!(rt; zone.seen().elapsed_at(zero));
        assert!(rt; !zone.seen().elapsed_at(seven));
    }
}
