// Document 01, "Links and telegrams", and document 02, K4: the table of up to 512 links, one word for each, ascending by
// address, tag and kind. Words are numbers, so whoever reads them is lent them; a panel or a table goes by value.
#![tactic(auto)]

pub mod search;
pub mod soundness;

ghost use Rattle.std.specs.Prelude.{◌≡◌, []};
ghost use Rattle.table.specs.Links.{held_of, holding};

use link::words::UNUSED;

// The most links that a table holds.
pub const MOST: usize = 512;

// The words from the count on are unused. Any numbers may stand here, and `held_of` tells what they hold: document 02, K4,
// answers 12 where an unused word is not 0, so no invariant of the type rules that out.
#[derive(Clone, Copy)]
pub struct Table {
    pub count: usize,
    pub words: [u32; MOST],
}

impl Table {
    // The table without links.
    #[tactic(auto, unfolding(laws::specs::Every::every))]
    pub fn empty() -> Table
        ensures { held_of result ≡ holding [] }
    {
        Table {
            count: 0,
            words: [UNUSED; MOST],
        }
    }
}
