// Document 01, "Sound": a test that is total on any contents. The blinds first, tag by tag, with the terminals met so
// far; then the links, by their words.
ghost use Rattle.std.specs.Prelude.{◌/◌, ◌%◌, ◌^◌, ◌≡◌, not, ◌&&◌};
ghost use Rattle.tags.specs.Tags.{places, tags_of};
ghost use Rattle.link.specs.Link.{of_word};
ghost use Rattle.table.specs.Links.{links_in, held_in};
ghost use Rattle.table.specs.Sound as ofLinks;
ghost use Rattle.panel.specs.Panel.{model_of};
ghost use Rattle.terminals.specs.Strip.{taken_of};
ghost use Rattle.panel.specs.Sound.{all_named, is_sound, sound_seat, sound_seats};

use crate::{Panel, Seat};
use link::words::tag_in;
use table::soundness;
use tags::{CELLS, PLACES, Tags};
use terminals::{Strip, TERMINALS};

impl Panel {
    #[tactic(auto, using(crate::proofs::Decides::parts_decide))]
    pub fn is_sound(&self) -> bool
        ensures { result ≡ is_sound (model_of self.now) }
    {
        is_sound(
            self.seats_sound(),
            self.present,
            &self.table.words,
            self.table.count,
        )
    }

    // Whether the seats are sound, whatever the links.
    #[tactic(auto, using(crate::proofs::Pass::over_absent, crate::proofs::Pass::over_present, crate::proofs::Pass::stops))]
    pub fn seats_sound(&self) -> bool
        ensures { result ≡ sound_seats (model_of self.now) }
    {
        let mut met = Strip::empty();
        for tag in 0..CELLS {
            if let Some(seat) = self.seat(tag) {
                if !seat.may_stand(met) {
                    return false;
                }
                met = met.with(seat.terminal);
            }
        }
        true
    }
}

impl Seat {
    // Whether the blind may stand at its terminal beside those that are taken.
    #[tactic(auto, unfolding(crate::specs::Sound::sound_seat))]
    fn may_stand(self, taken: Strip) -> bool
        ensures { result ≡ (not (taken_of taken self.terminal) && sound_seat self) }
    {
        !taken.has(self.terminal)
            && u64::from(self.terminal) < TERMINALS
            && sound_blind::is_sound(self.blind)
    }
}

// Whether the panel is sound whose seats have been judged and whose links are these: words and a count, since any slice
// may be tested.
pub fn is_sound(seats: bool, present: Tags, words: &[u32], count: usize) -> bool
    ensures { result ≡ (seats && (ofLinks.is_sound (held_in count words.now) && all_named (tags_of present) (links_in count words.now))) }
{
    seats && soundness::is_sound(words, count) && all_named(present, words, count)
}

// Each link names a present blind. The or of all words has a tag past 63 exactly if one of them has. The tags
// without a blind are shifted by each tag: no lowest digit is 1 exactly if each tag has a blind.
pub fn all_named(present: Tags, words: &[u32], count: usize) -> bool
    ensures { result ≡ all_named (tags_of present) (links_in count words.now) }
{
    let free = !present.word;
    let mut joined: u32 = 0;
    let mut missing: u64 = 0;
    for &word in &words[..count.min(words.len())] {
        joined |= word;
        missing |= from_tag(free, word);
    }
    (tag_in(joined) < PLACES) & (missing % 2 == 0)
}

// The digits of a word of tags from that of a link's tag on.
fn from_tag(tags: u64, word: u32) -> u64
    ensures { result ≡ tags / 2 ^ ((of_word word).tag % places) }
{
    let tag = tag_in(word);
    tags >> (tag % PLACES)
}
