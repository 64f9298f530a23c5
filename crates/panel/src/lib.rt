// Document 01, "What the panel is": up to 64 blinds (tags 0 to 63), a strip of 128 terminals and up to 512 links.
// A tag that is not present carries nothing, whatever stands at its place.
#![tactic(auto)]

pub mod soundness;

ghost use Rattle.std.specs.Prelude.{◌<◌, ◌≡◌, true};
ghost use Rattle.tags.specs.Tags.{places, tags_of};
ghost use Rattle.panel.specs.Panel.{model_of, bare, seat_at};

use blind::Blind;
use params::Params;
use table::Table;
use tags::{CELLS, Tags};

// A blind, and the terminal that it stands at.
#[derive(Clone, Copy)]
pub struct Seat {
    pub terminal: u8,
    pub blind: Blind,
}

#[derive(Clone, Copy)]
pub struct Panel {
    pub present: Tags,
    pub seats: [Seat; CELLS],
    pub table: Table,
}

impl Panel {
    // The panel without blinds and links.
    #[tactic(auto, unfolding(tags::specs::Tags::none))]
    pub fn empty() -> Panel
        ensures { model_of result ≡ bare }
    {
        let present = Tags::empty();
        let table = Table::empty();
        let vacant = Seat {
            terminal: 0,
            blind: Blind::fresh(Params::DEFAULT),
        };
        Panel {
            present,
            seats: [vacant; CELLS],
            table,
        }
    }

    // The seat of a tag that has a blind.
    pub fn seat(&self, tag: usize) -> Option<Seat>
        ensures { result ≡ seat_at self.now tag }
    {
        if has_place(self.present, tag) {
            Some(self.seats[tag])
        } else {
            None
        }
    }
}

// A tag that is in the set is one of the places.
fn has_place(present: Tags, tag: usize) -> bool
    ensures { (result ≡ tags_of present tag) × (result ≡ true → tag < places) }
{
    present.has(tag as u64)
}
