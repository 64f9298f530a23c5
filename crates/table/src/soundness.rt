// Document 01, "Sound", what it says of links alone, and document 02, K4: unused words are 0. A table that is not sound
// is refused by every call, so whoever searches one may count on the order. Each loop only adds up and never stops early,
// so that it can work on many words at once.
ghost use Rattle.std.specs.Prelude.{◌≡◌};
ghost use Rattle.table.specs.Links.{links_in, tidy_in, held_in, held_of};
ghost use Rattle.table.specs.Sound.{in_order, is_sound};
ghost use Rattle.link.specs.Link.{nothing};

use crate::{MOST, Table};
use link::words::{NO_ADDRESS, UNUSED, clash, class_in};

// Whether the words are those of a sound table with this count: words and a count, since any slice may be tested.
#[tactic(auto, unfolding(crate::specs::Sound::is_sound))]
pub fn is_sound(words: &[u32], count: usize) -> bool
    ensures { result ≡ is_sound (held_in count words.now) }
{
    count <= MOST && in_order(words, count) && is_tidy(words, count)
}

// Each word is tested against the one before it.
fn in_order(words: &[u32], count: usize) -> bool
    ensures { result ≡ in_order nothing (links_in count words.now) }
{
    let mut last = NO_ADDRESS;
    let mut last_class = class_in(last);
    let mut wrong: u32 = 0;
    for &word in &words[..count.min(words.len())] {
        let class = class_in(word);
        wrong |= clash(word, last, class == last_class);
        last = word;
        last_class = class;
    }
    wrong == 0
}

// Whether nothing stands in the words from the count on.
fn is_tidy(words: &[u32], count: usize) -> bool
    ensures { result ≡ tidy_in count words.now }
{
    let mut joined: u32 = 0;
    for &word in &words[count.min(words.len())..] {
        joined |= word;
    }
    joined == UNUSED
}

impl Table {
    // The same, of its own words and count.
    pub fn is_sound(&self) -> bool
        ensures { result ≡ is_sound (held_of self.now) }
    {
        is_sound(&self.words, self.count)
    }
}
