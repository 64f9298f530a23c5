// What the lines so far say, and one line more. Document 01 judges it by its own calls, install and add link.
ghost use Rattle.std.specs.Prelude.{◌≡◌};
ghost use Rattle.std.proofs.Math.Option.{none};
ghost use Rattle.fields.specs.Lines.{line as ofLines·line, line_of};
ghost use Rattle.plant.specs.Read.{with_blind, with_link, further as ofRead·further, if_there};
ghost use Rattle.plant_reader.specs.Reader.{plan_of, begun_with, taken_of, size_of, numbers_in, set_in};

use arguments::Arguments;
use fields::{TAB, numbers_of};
use installs::install;
use panel::Panel;
use params::{Asked, SET};
use rows::place_of;
use wiring::add_link;
use words::is_same;

// The panel, the lowest tag that a further blind line may have, and the version.
#[derive(Clone, Copy)]
pub(crate) struct Draft {
    pub panel: Panel,
    pub floor: u64,
    pub version: u64,
}

// How many numbers a blind line has before those of its set: tag and terminal.
const HEAD: usize = 2;

// How many numbers a link line has.
const LINK: usize = 3;

impl Draft {
    // After a first line with this version.
    pub(crate) fn start(version: u64) -> Draft
        ensures { plan_of result ≡ begun_with version }
    {
        let panel = Panel::empty();
        Draft {
            panel,
            floor: 0,
            version,
        }
    }

    // One line more after the first, given without its line feed, if it is good.
    #[tactic(auto, using(fields::proofs::Parts::first_mark, crate::proofs::Said::no_numbers, crate::proofs::Said::by_word))]
    pub(crate) fn with(self, line: &[u8]) -> Option<Draft>
        ensures { taken_of result ≡ if_there (line_of line.now) none (ofRead·further (plan_of self)) }
    {
        let end = place_of(TAB, line, 0);
        let numbers = numbers_of(line, end)?;
        self.further(&line[..end], numbers)
    }

    // By its word.
    #[tactic(auto, unfolding(plant::specs::Read::further, texts::specs::Text::text, laws::specs::Fills::tabulate))]
    fn further(self, word: &[u8], numbers: Arguments) -> Option<Draft>
        ensures { taken_of result ≡ ofRead·further (plan_of self) (ofLines·line word.now (numbers_in numbers)) }
    {
        if is_same(word, b"blind") {
            return self.with_blind(numbers);
        }
        if is_same(word, b"link") {
            return self.with_link(numbers);
        }
        None
    }

    // Blinds stand by tag, and before all links.
    #[tactic(auto, using(crate::proofs::Taken::blind_none, crate::proofs::Taken::blind_count, crate::proofs::Taken::blind_below, crate::proofs::Taken::blind_late, crate::proofs::Taken::blind_refused, crate::proofs::Taken::tag_low, crate::proofs::Taken::blind_good, crate::proofs::Said::size_there, crate::proofs::Said::size_missing))]
    fn with_blind(self, numbers: Arguments) -> Option<Draft>
        ensures { taken_of result ≡ with_blind (plan_of self) (numbers_in numbers) }
    {
        let tag = numbers.values[0];
        let terminal = numbers.values[1];
        if numbers.count != blind_size(self.version)? {
            return None;
        }
        if tag < self.floor {
            return None;
        }
        if self.panel.table.count != 0 {
            return None;
        }
        let installed = install(self.panel, tag, terminal, set_of(numbers));
        match installed.outcome {
            Ok(_) => Some(Draft {
                panel: installed.state,
                floor: tag + 1,
                ..self
            }),
            Err(_) => None,
        }
    }

    // A link that stands after all others moves none.
    #[tactic(auto, using(crate::proofs::Taken::link_count, crate::proofs::Taken::link_refused, crate::proofs::Taken::link_moves, crate::proofs::Taken::link_good))]
    fn with_link(self, numbers: Arguments) -> Option<Draft>
        ensures { taken_of result ≡ with_link (plan_of self) (numbers_in numbers) }
    {
        if numbers.count != LINK {
            return None;
        }
        let [address, tag, kind, ..] = numbers.values;
        let added = add_link(self.panel, address, tag, kind);
        match added.outcome {
            Ok(0) => Some(Draft {
                panel: added.state,
                ..self
            }),
            _ => None,
        }
    }
}

// How many numbers a blind line has in a version, if that is one.
#[tactic(auto, unfolding(plant::specs::Read::blind_size))]
pub(crate) fn blind_size(version: u64) -> Option<usize>
    ensures { result ≡ size_of version }
{
    match version {
        1 => Some(HEAD + SET),
        _ => None,
    }
}

// The set of a blind line.
fn set_of(numbers: Arguments) -> Asked
    ensures { result ≡ set_in numbers }
{
    let mut row = [0; SET];
    row.copy_from_slice(&numbers.values[HEAD..HEAD + SET]);
    Asked::from(row)
}
