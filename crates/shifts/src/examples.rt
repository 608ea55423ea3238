// Small networks and the shifts that are run on them.

use source::Item;

// The bell: pushed on 0, it answers on 1 between 3 and 5 ticks later.
const BELL: &[u8] = &[
    1, 1, 2, 0, 1, 2, // version, clocks, channels, processes
    0, 1, 0, // the environment: one location
    1, 2, 0, 1, 1, 0, 5, // the system: the limit of location 1 is clock 1 at most 5
    4, // edges
    0, 0, 0, 1, 0, 0, // the environment sends 0
    0, 0, 0, 4, 0, 0, // the environment receives 1
    1, 0, 1, 2, 0, 1, // the system receives 0 and resets clock 1
    1, 1, 0, 3, 1, 0, 1, 0, 189, 132, 61, 0, // the system sends 1 when clock 1 is at least 3
];

// The same, but who has pushed waits in a location of its own, for 4 ticks at most.
const GENTLE_BELL: &[u8] = &[
    1, 1, 2, 0, 1, 2, // version, clocks, channels, processes
    0, 2, 0, 1, 1, 0, 4, // the environment: the limit of location 1 is clock 1 at most 4
    1, 2, 0, 1, 1, 0, 5, // the system: the limit of location 1 is clock 1 at most 5
    5, // edges
    0, 0, 1, 1, 0, 0, // the environment sends 0
    0, 0, 0, 4, 0, 0, // the environment receives 1
    0, 1, 1, 4, 0, 0, // the environment receives 1
    1, 0, 1, 2, 0, 1, // the system receives 0 and resets clock 1
    1, 1, 0, 3, 1, 0, 1, 0, 189, 132, 61, 0, // the system sends 1 when clock 1 is at least 3
];

// The bell has to be left between 3 and 4 ticks after the push, and answers behind that.
const TIGHT_BELL: &[u8] = &[
    1, 1, 2, 0, 1, 2, // version, clocks, channels, processes
    0, 1, 0, // the environment: one location
    1, 3, 0, 1, 1, 1, 4, 0, // the system: the limit of location 1 is clock 1 less than 4
    5, // edges
    0, 0, 0, 1, 0, 0, // the environment sends 0
    0, 0, 0, 4, 0, 0, // the environment receives 1
    1, 0, 1, 2, 0, 1, // the system receives 0 and resets clock 1
    1, 1, 2, 0, 1, 0, 1, 1, 189, 132, 61, 0, // the system alone, when clock 1 is above 3
    1, 2, 0, 3, 1, 0, 1, 0, 189, 132, 61, 0, // the system sends 1 when clock 1 is at least 3
];

// A shift: the network, by its name and its sheet; the kind of time and the entries that the rows may
// hold; what happens, and whether the watch is then closed.
pub(crate) struct Example {
    pub(crate) name: &'static str,
    pub(crate) sheet: &'static [u8],
    pub(crate) split: bool,
    pub(crate) entries: u8,
    pub(crate) items: &'static [Item],
    pub(crate) closes: bool,
}

// The entries of a shift that has nothing to say of them.
pub(crate) const ENTRIES: u8 = 40;

pub(crate) const EXAMPLES: [Example; 12] = [
    Example {
        name: "bell",
        sheet: BELL,
        split: false,
        entries: ENTRIES,
        items: &[],
        closes: true,
    },
    Example {
        name: "bell",
        sheet: BELL,
        split: false,
        entries: ENTRIES,
        items: &[Item::See(0), Item::Wait(5), Item::See(1)],
        closes: true,
    },
    Example {
        name: "bell",
        sheet: BELL,
        split: false,
        entries: ENTRIES,
        items: &[Item::See(0), Item::Wait(2), Item::See(1)],
        closes: false,
    },
    Example {
        name: "bell",
        sheet: BELL,
        split: false,
        entries: ENTRIES,
        items: &[Item::See(0), Item::Wait(3), Item::Wait(3)],
        closes: false,
    },
    Example {
        name: "bell",
        sheet: BELL,
        split: false,
        entries: ENTRIES,
        items: &[Item::See(1)],
        closes: false,
    },
    Example {
        name: "bell",
        sheet: BELL,
        split: false,
        entries: ENTRIES,
        items: &[Item::See(0), Item::See(0)],
        closes: false,
    },
    Example {
        name: "gentle bell",
        sheet: GENTLE_BELL,
        split: false,
        entries: ENTRIES,
        items: &[Item::See(0), Item::Wait(5)],
        closes: false,
    },
    Example {
        name: "tight bell",
        sheet: TIGHT_BELL,
        split: false,
        entries: ENTRIES,
        items: &[Item::See(0), Item::Wait(4)],
        closes: false,
    },
    Example {
        name: "tight bell",
        sheet: TIGHT_BELL,
        split: true,
        entries: ENTRIES,
        items: &[Item::See(0), Item::Wait(4), Item::See(1)],
        closes: true,
    },
    Example {
        name: "bell",
        sheet: BELL,
        split: false,
        entries: 2,
        items: &[Item::See(0)],
        closes: false,
    },
    Example {
        name: "bell",
        sheet: BELL,
        split: false,
        entries: 3,
        items: &[Item::See(0)],
        closes: false,
    },
    Example {
        name: "bell",
        sheet: BELL,
        split: false,
        entries: ENTRIES,
        items: &[Item::See(0), Item::See(2)],
        closes: false,
    },
];
