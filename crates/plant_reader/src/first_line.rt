// The first line of a plant file. It is judged before there is a panel, so that what is no plant file ends soon.
ghost use Rattle.std.specs.Prelude.{◌≡◌};
ghost use Rattle.plant.specs.Read.{start, bytes_taken};
ghost use Rattle.plant_reader.specs.Reader.{begun_if};

use crate::drafts::blind_size;
use fields::{TAB, numbers_of};
use rows::place_of;
use words::is_same;

// The version that it names, given without its line feed, if it is good.
#[tactic(auto, using(fields::proofs::Parts::first_mark, crate::proofs::FirstLine::no_form, crate::proofs::FirstLine::other_word, crate::proofs::FirstLine::other_count, crate::proofs::FirstLine::no_version, crate::proofs::FirstLine::version_good), unfolding(texts::specs::Text::text, laws::specs::Fills::tabulate))]
pub(crate) fn version_of(line: &[u8]) -> Option<u64>
    ensures { begun_if result ≡ bytes_taken start line.now }
{
    let end = place_of(TAB, line, 0);
    let numbers = numbers_of(line, end)?;
    if !is_same(&line[..end], b"plant") {
        return None;
    }
    if numbers.count != 1 {
        return None;
    }
    let version = numbers.values[0];
    blind_size(version)?;
    Some(version)
}
