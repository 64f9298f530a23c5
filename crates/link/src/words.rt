// Document 02, K4: each link is held as one word of 32 bits, its key: the address above the tag above the kind, so that
// the order of the words is the order of the links. Tag and kind have 8 bits each, more than today's need.

ghost use Rattle.std.specs.Prelude.{◌≡◌, cond, not, ◌&&◌, ◌||◌, eqb, ltb};
ghost use Rattle.kinds.specs.Kinds.{class_of};
ghost use Rattle.link.specs.Link.{is_below_ends, key_of, of_word};

use crate::Link;
use kinds::class_of_kind;

// How far apart the words of neighbouring addresses are, and of neighbouring tags; a search may ask for a key past the
// last word, in 64 bits.
pub const ADDRESS_STEP: u64 = 65536;

pub const TAG_STEP: u64 = 256;

const ADDRESSES: u32 = ADDRESS_STEP as u32;

const TAGS: u32 = TAG_STEP as u32;

// What stands in an unused place: it is no link's word.
pub const UNUSED: u32 = 0;

// The last word without an address: the words of all links are above it.
pub const NO_ADDRESS: u32 = ADDRESSES - 1;

impl Link {
    // The word of a link; below it is said why it is no `From`.
    #[tactic(auto, unfolding(crate::specs::Link::key_of))]
    pub fn word(self) -> u32
        ensures { result ≡ key_of self }
    {
        u32::from(self.address) * ADDRESSES + u32::from(self.tag) * TAGS + u32::from(self.kind)
    }

    // The link of a word, whether it is in range or not. `word` and `of` are no `From`: `u32::from(link)` would not say that
    // it gives the word of document 02.
    #[tactic(auto, unfolding(crate::specs::Link::of_word))]
    pub fn of(word: u32) -> Link
        ensures { result ≡ of_word word }
    {
        Link {
            address: (word / ADDRESSES) as u16,
            tag: (word / TAGS % TAGS) as u8,
            kind: (word % TAGS) as u8,
        }
    }
}

// The tag of a word.
#[tactic(auto, unfolding(crate::specs::Link::of_word))]
pub fn tag_in(word: u32) -> u64
    ensures { result ≡ (of_word word).tag }
{
    u64::from(word / TAGS % TAGS)
}

// The class of a word's kind.
#[tactic(auto, unfolding(crate::specs::Link::of_word))]
pub fn class_in(word: u32) -> u32
    ensures { result ≡ class_of (of_word word).kind }
{
    class_of_kind(word % TAGS)
}

// 1 where a word may not stand right after another one, of its class or not, else 0: a number to add up, with no branch
// to take. Where the one before has an address, so has every word above it.
#[tactic(auto, unfolding(crate::specs::Link::of_word))]
pub fn clash(word: u32, last: u32, alike: bool) -> u32
    ensures { result ≡ cond (is_below_ends (of_word word) && ltb last word && (not (eqb (of_word word).address (of_word last).address) || alike)) 0 1 }
{
    let link = Link::of(word);
    let above = last < word;
    let another = word / ADDRESSES != last / ADDRESSES;
    let fits = link.below_ends() & above & (another | alike);
    u32::from(!fits)
}
