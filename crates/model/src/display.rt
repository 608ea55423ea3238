ghost use Rattle.std.specs.Prelude.{Some};
ghost use Rattle.model.specs.Texts.{kind_text, side_text, label_text, limit_text, condition_text};

use crate::{ChannelKind, Condition, Label, Limit, Side};
use std::fmt;

impl fmt::Display for ChannelKind {
    ghost output = { λ kind. Some (kind_text kind) };

    fn fmt<W: fmt::Write>(&self, f: &mut fmt::Formatter<W>) -> fmt::Result {
        f.write_str(match self {
            ChannelKind::Input => "input",
            ChannelKind::Output => "output",
            ChannelKind::Hidden => "hidden",
        })
    }
}

impl fmt::Display for Side {
    ghost output = { λ side. Some (side_text side) };

    fn fmt<W: fmt::Write>(&self, f: &mut fmt::Formatter<W>) -> fmt::Result {
        f.write_str(match self {
            Side::Environment => "environment",
            Side::System => "system",
        })
    }
}

impl fmt::Display for Label {
    ghost output = { λ label. Some (label_text label) };

    fn fmt<W: fmt::Write>(&self, f: &mut fmt::Formatter<W>) -> fmt::Result {
        match self {
            Label::Alone => f.write_str("alone"),
            Label::Send(k) => write!(f, "sends {k}"),
            Label::Receive(k) => write!(f, "receives {k}"),
        }
    }
}

impl fmt::Display for Limit {
    ghost output = { λ limit. Some (limit_text limit) };

    fn fmt<W: fmt::Write>(&self, f: &mut fmt::Formatter<W>) -> fmt::Result {
        let sign = if self.strict { "<" } else { "<=" };
        write!(f, "clock {} {sign} {}", self.clock, self.ticks)
    }
}

// Clock 0 reads zero, so a condition with it compares one clock with a number.
impl fmt::Display for Condition {
    ghost output = { λ condition. Some (condition_text condition) };

    fn fmt<W: fmt::Write>(&self, f: &mut fmt::Formatter<W>) -> fmt::Result {
        let (left, right, ticks) = (self.left, self.right, i64::from(self.ticks));
        if left == 0 {
            let sign = if self.strict { ">" } else { ">=" };
            return write!(f, "clock {right} {sign} {}", -ticks);
        }
        let sign = if self.strict { "<" } else { "<=" };
        if right == 0 {
            return write!(f, "clock {left} {sign} {ticks}");
        }
        write!(f, "clock {left} - clock {right} {sign} {ticks}")
    }
}
