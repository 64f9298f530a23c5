// Document 02, K7: the one search in a table, by halving. A link stands where the search for its key ends, or nowhere;
// the links of an address stand from where the search for its first key ends.
ghost use Rattle.std.specs.Prelude.{min, ◌≡◌};
ghost use Rattle.table.specs.Links.{links_in};
ghost use Rattle.table.specs.Search.{searched};
ghost use Rattle.table.specs.Sound.{most};

use crate::{MOST, Table};

// How many links of a sound table stand below a key: those before low do, those from high on do not. Of a count above 512
// the 512 links are looked at that a table can have. The clause says where the halving ends on any words, and
// `partition_point` promises nothing of words that do not ascend. Words and a count, since any slice may be searched.
pub fn below(words: &[u32], count: usize, key: u64) -> usize
    ensures { result ≡ searched key (links_in (min count most) words.now) }
{
    let mut low = 0;
    let mut high = count.min(MOST).min(words.len());
    while low < high {
        let middle = (low + high) / 2;
        if u64::from(words[middle]) < key {
            low = middle + 1;
        } else {
            high = middle;
        }
    }
    low
}

impl Table {
    // The same, of its own words and count.
    pub fn below(&self, key: u64) -> usize
        ensures { result ≡ searched key (links_in (min self.now.count most) self.now.words) }
    {
        below(&self.words, self.count, key)
    }
}
