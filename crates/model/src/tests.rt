use crate::{ChannelKind, Condition, Label, Limit, Location, Row, Side, UnknownNumber};
use std::alloc::Global;
use std::fmt::Display;
use std::test::Fail;

// Whether the part prints that text.
fn prints<T: Display>(heap: Global, part: &T, text: &str) -> Result<bool, Fail> {
    Ok(part.to_string(heap)?.as_str() == text)
}

#[test]
fn kinds_sides_and_labels(rt: HostRuntime) -> Result<(), Fail> {
    assert!(rt; prints(rt.alloc(), &ChannelKind::Input, "input")?);
    assert!(rt; prints(rt.alloc(), &ChannelKind::Output, "output")?);
    assert!(rt; prints(rt.alloc(), &ChannelKind::Hidden, "hidden")?);
    assert!(rt; prints(rt.alloc(), &Side::Environment, "environment")?);
    assert!(rt; prints(rt.alloc(), &Side::System, "system")?);
    assert!(rt; prints(rt.alloc(), &Label::Alone, "alone")?);
    assert!(rt; prints(rt.alloc(), &Label::Send(3), "sends 3")?);
    assert!(rt; prints(rt.alloc(), &Label::Receive(3), "receives 3")?);
    Ok(())
}

#[test]
fn limits(rt: HostRuntime) -> Result<(), Fail> {
    let at_most = Limit {
        clock: 1,
        strict: false,
        ticks: 5,
    };
    let less = Limit {
        strict: true,
        ..at_most
    };
    assert!(rt; prints(rt.alloc(), &at_most, "clock 1 <= 5")?);
    assert!(rt; prints(rt.alloc(), &less, "clock 1 < 5")?);
    Ok(())
}

// A condition that is not strict, and the same one strict.
fn both(heap: Global, left: u8, right: u8, ticks: i32, texts: [&str; 2]) -> Result<bool, Fail> {
    let loose = Condition {
        left,
        right,
        strict: false,
        ticks,
    };
    let strict = Condition {
        strict: true,
        ..loose
    };
    Ok(prints(heap, &loose, texts[0])? && prints(heap, &strict, texts[1])?)
}

#[test]
fn conditions(rt: HostRuntime) -> Result<(), Fail> {
    assert!(rt;
        both(
            rt.alloc(),
            1,
            2,
            5,
            ["clock 1 - clock 2 <= 5", "clock 1 - clock 2 < 5"]
        )?
    );
    assert!(rt;
        both(
            rt.alloc(),
            2,
            1,
            -5,
            ["clock 2 - clock 1 <= -5", "clock 2 - clock 1 < -5"]
        )?
    );
    assert!(rt; both(rt.alloc(), 3, 0, 7, ["clock 3 <= 7", "clock 3 < 7"])?);
    assert!(rt; both(rt.alloc(), 0, 3, -7, ["clock 3 >= 7", "clock 3 > 7"])?);
    assert!(rt; both(rt.alloc(), 0, 3, 0, ["clock 3 >= 0", "clock 3 > 0"])?);
    Ok(())
}

#[test]
fn numbers(rt: HostRuntime) -> Result<(), Fail> {
    assert_eq!(rt; ChannelKind::try_from(2), Ok(ChannelKind::Hidden));
    assert_eq!(rt; ChannelKind::try_from(3), Err(UnknownNumber(3)));
    assert_eq!(rt; Side::try_from(1), Ok(Side::System));
    assert_eq!(rt; Side::try_from(2), Err(UnknownNumber(2)));
    assert_eq!(rt; Label::try_from(0), Ok(Label::Alone));
    assert_eq!(rt; Label::try_from(511), Ok(Label::Send(255)));
    assert_eq!(rt; Label::try_from(512), Ok(Label::Receive(255)));
    assert_eq!(rt; Label::try_from(513), Err(UnknownNumber(513)));
    assert!(rt;
        prints(
            rt.alloc(),
            &UnknownNumber(513),
            "nothing here has the number 513"
        )?
    );
    Ok(())
}

#[test]
fn rows_with_the_same_elements_are_equal(rt: HostRuntime) {
    let kinds = |slots: [ChannelKind; 2], count: usize| Row { count, slots };
    let a = kinds([ChannelKind::Input, ChannelKind::Input], 1);
    let b = kinds([ChannelKind::Input, ChannelKind::Output], 1);
    let c = kinds([ChannelKind::Input, ChannelKind::Output], 2);
    let d = kinds([ChannelKind::Input, ChannelKind::Output], 3);
    assert_eq!(rt; a, b);
    assert_ne!(rt; b, c);
    assert_eq!(rt; c, d);
    assert_eq!(rt; d.as_slice().len(), 2);
    assert_eq!(rt; Location::EMPTY, Location::EMPTY);
}
