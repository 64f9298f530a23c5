// What a workload does, and the case in which it does so, each by its number.
use crate::panels::{END, FRONT};
use fields::TAB;

#[derive(Clone, Copy)]
pub(crate) enum Call {
    // A time step of so many milliseconds.
    Time(u64),
    // A telegram to one link, and to the shared ones.
    Lone,
    Shared,
    Strip,
    Inventory,
    // A link of this address, added and removed.
    Wiring(u64),
    // A terminal, spliced in and out.
    Splicing,
    Install,
    Remove,
    Params,
    // A blind, removed and installed.
    Exchange,
    // The search in the link table, which is never refused.
    Search,
    // The panel's plant file: written, read, and read with the rest of its buffer.
    Writing,
    Reading,
    LongReading,
    // Rubbish read: these two bytes in turn.
    Rubbish(u8, u8),
}

impl From<u64> for Call {
    fn from(number: u64) -> Call {
        match number {
            0 => Call::Time(1),
            1 => Call::Time(1_000),
            2 => Call::Time(60_000),
            3 => Call::Lone,
            4 => Call::Shared,
            5 => Call::Strip,
            6 => Call::Inventory,
            7 => Call::Wiring(FRONT),
            8 => Call::Splicing,
            9 => Call::Install,
            10 => Call::Remove,
            11 => Call::Params,
            12 => Call::Exchange,
            13 => Call::Wiring(END),
            14 => Call::Search,
            15 => Call::Writing,
            16 => Call::Reading,
            17 => Call::LongReading,
            // Lines of one byte that are no lines of a file, one line without a tab, one line of tabs and one of numbers.
            18 => Call::Rubbish(b'x', b'\n'),
            19 => Call::Rubbish(b'x', b'x'),
            20 => Call::Rubbish(TAB, TAB),
            21 => Call::Rubbish(b'1', TAB),
            _ => Call::Rubbish(b'x', TAB),
        }
    }
}

impl Call {
    // Calls of the bus find the blinds running, the others find them at rest.
    pub(crate) fn finds_running(self) -> bool {
        matches!(
            self,
            Call::Time(_) | Call::Lone | Call::Shared | Call::Strip
        )
    }
}

#[derive(Clone, Copy, PartialEq, Eq)]
pub(crate) enum Case {
    Done,
    // Refused with 1.
    Outside,
    // Refused with 11.
    WrongCells,
    // Refused with 12, for the blinds and for the links.
    BadBlinds,
    BadLinks,
}

impl From<u64> for Case {
    fn from(number: u64) -> Case {
        match number {
            1 => Case::Outside,
            2 => Case::WrongCells,
            3 => Case::BadBlinds,
            4 => Case::BadLinks,
            _ => Case::Done,
        }
    }
}
