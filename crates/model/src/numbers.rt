ghost use Rattle.std.specs.Prelude.{◌++◌, Some, codes};
ghost use Rattle.std.specs.Fmt.{decimal};
ghost use Rattle.model.specs.Sheet.{kind_of, side_of, label_of};
ghost use Rattle.model.specs.Numbers.{StandsFor};

use crate::{ChannelKind, Label, Side};
use std::error::Error;
use std::fmt;

// A number of a sheet that stands for nothing of the kind that is wanted there.
#[derive(Clone, Copy, Debug, PartialEq, Eq)]
pub struct UnknownNumber(pub u32);

impl fmt::Display for UnknownNumber {
    ghost output = { λ e. Some (codes "nothing here has the number " ++ decimal e.0) };

    fn fmt<W: fmt::Write>(&self, f: &mut fmt::Formatter<W>) -> fmt::Result {
        write!(f, "nothing here has the number {}", self.0)
    }
}

impl Error for UnknownNumber {}

impl TryFrom<u32> for ChannelKind {
    type Error = UnknownNumber;

    ghost try_from_gives = { StandsFor kind_of 2 };

    fn try_from(v: u32) -> Result<ChannelKind, UnknownNumber> {
        match v {
            0 => Ok(ChannelKind::Input),
            1 => Ok(ChannelKind::Output),
            2 => Ok(ChannelKind::Hidden),
            _ => Err(UnknownNumber(v)),
        }
    }
}

impl TryFrom<u32> for Side {
    type Error = UnknownNumber;

    ghost try_from_gives = { StandsFor side_of 1 };

    fn try_from(v: u32) -> Result<Side, UnknownNumber> {
        match v {
            0 => Ok(Side::Environment),
            1 => Ok(Side::System),
            _ => Err(UnknownNumber(v)),
        }
    }
}

// Label 0 is alone, 2k + 1 sends on channel k, 2k + 2 receives on it.
impl TryFrom<u32> for Label {
    type Error = UnknownNumber;

    ghost try_from_gives = { StandsFor label_of 512 };

    fn try_from(v: u32) -> Result<Label, UnknownNumber> {
        if v == 0 {
            return Ok(Label::Alone);
        }
        let k = u8::try_from((v - 1) / 2).map_err(|_| UnknownNumber(v))?;
        if v % 2 == 1 {
            Ok(Label::Send(k))
        } else {
            Ok(Label::Receive(k))
        }
    }
}
