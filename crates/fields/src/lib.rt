// A line of a plant file as a word and numbers, parted by tabs.
#![tactic(auto)]

pub mod written;

ghost use Rattle.std.specs.Prelude.{◌≡◌, drop};
ghost use Rattle.decimals.specs.Decimals.{plain_of};
ghost use Rattle.arguments.specs.Arguments.{nothing, heard_by};
ghost use Rattle.fields.specs.Parts.{parts_after};
ghost use Rattle.fields.specs.Lines.{tab};
ghost use Rattle.fields.specs.Heard.{all_kept};

use arguments::{Arguments, MOST};
use decimals::read_plain;
use rows::place_of;

pub const TAB: u8 = 9;

// The least buffer that is lent for a file, and so the longest file.
pub const ROOM: usize = 16_384;

// The numbers of a line from the tab at this place on; none where a field is no number, or is one more than are kept. No
// field after that is read: no line of a file is like that, and rubbish may have a field for every byte.
#[tactic(auto, using(rows::proofs::NextLine::place_within, crate::proofs::Turn::turn_many), unfolding(arguments::specs::Arguments::nothing))]
pub fn numbers_of(line: &[u8], from: usize) -> Option<Arguments>
    ensures { result ≡ all_kept (heard_by plain_of nothing (parts_after tab (drop from line.now))) }
{
    let mut heard = Arguments::nothing();
    // Not counted: each turn goes on from the tab after its field.
    let mut at = from;
    while at < line.len() {
        let end = place_of(TAB, line, at + 1);
        let field = read_plain(&line[at + 1..end])?;
        heard = heard.with(Some(field));
        if MOST < heard.count {
            return None;
        }
        at = end;
    }
    Some(heard)
}
