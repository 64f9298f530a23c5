// Document 01, "Edits", inventory: the set of the tags that have a blind, as a 64-bit presence word.
// Every call takes any number for a tag: one that no set can hold is in none, and changes none.
#![tactic(auto)]

ghost use Rattle.std.specs.Prelude.{◌≡◌};
ghost use Rattle.tags.specs.Tags.{places, tags_of, none, put, taken, how_many, lowest_free};

// Tags are the numbers below this one.
pub const PLACES: u64 = 64;

// The same, to count places by: one cell, and one place of an array, for each tag.
pub const CELLS: usize = PLACES as usize;

#[derive(Clone, Copy)]
pub struct Tags {
    pub word: u64,
}

impl Tags {
    // No tag is in it.
    #[tactic(auto, using(crate::proofs::Members::member_none))]
    pub fn empty() -> Tags
        ensures { tags_of result ≡ none }
    {
        Tags { word: 0 }
    }

    // Whether a tag is in the set.
    #[tactic(auto, unfolding(crate::specs::Tags::member))]
    pub fn has(self, tag: u64) -> bool
        ensures { result ≡ tags_of self tag }
    {
        tag < PLACES && (self.word >> tag) % 2 == 1
    }

    // The set with a tag put in.
    #[tactic(auto, using(crate::proofs::Members::put_past))]
    pub fn with(self, tag: u64) -> Tags
        ensures { tags_of result ≡ put places tag (tags_of self) }
    {
        if tag < PLACES {
            Tags {
                word: self.word | (1 << tag),
            }
        } else {
            self
        }
    }

    // The set with a tag taken out.
    pub fn without(self, tag: u64) -> Tags
        ensures { tags_of result ≡ taken tag (tags_of self) }
    {
        if tag < PLACES {
            Tags {
                word: self.word & !(1 << tag),
            }
        } else {
            self
        }
    }

    // How many tags are in the set: the ones of the word.
    #[tactic(auto, using(crate::proofs::Members::ones_count))]
    pub fn count(self) -> u32
        ensures { result ≡ how_many places (tags_of self) }
    {
        self.word.count_ones()
    }

    // The lowest tag that is not in the set, 64 if there is none: the trailing zeros of the complement.
    #[tactic(auto, using(crate::proofs::Members::zeros_lowest))]
    pub fn lowest_free(self) -> u32
        ensures { result ≡ lowest_free places (tags_of self) }
    {
        (!self.word).trailing_zeros()
    }
}
