ghost use Rattle.std.specs.Prelude.{◌≡◌};
ghost use Rattle.network.specs.declared.faults.SheetFault.TheVariants.{Byte};

use wire::ByteFault;

// Why a sheet is refused, with the place that the refusal names.
#[derive(Clone, Copy, Debug, PartialEq, Eq)]
pub enum SheetFault {
    // the fault of a number, whole
    Byte(ByteFault),
    // a field has no such value; the place is its first byte
    Value(usize),
    // a condition compares a clock with itself; the place is the condition's first byte
    SelfComparison(usize),
    // a label uses a channel against its side; the place is the label's first byte
    AgainstSide(usize),
    // bytes are left behind the last edge; the place is the first of them
    LeftOver(usize),
}

impl From<ByteFault> for SheetFault {
    ghost from_gives = { λ f r. r ≡ Byte f };

    fn from(f: ByteFault) -> SheetFault {
        SheetFault::Byte(f)
    }
}
