// What the search in a table tells of a link: whether it is there, and whether its address has another class. Both may be
// asked of a sound table only. There is no type for such a table: tried with this as its ghost field, the proofs lacked the
// length of the words behind its reference.

ghost use Rattle.std.specs.Prelude.{◌≡◌, true};
ghost use Rattle.table.specs.Links.{held_of};
ghost use Rattle.table.specs.Sound.{is_sound};
ghost use Rattle.links.specs.Edits.{other_class};
ghost use Rattle.links.specs.Search.{Found};

use link::Link;
use link::words::{ADDRESS_STEP, class_in};
use table::Table;

// The place of a link, or the one where it would stand.
#[tactic(auto, using(table::proofs::Stores::few))]
pub(crate) fn find(table: &Table, link: Link) -> Result<usize, usize>
    requires { is_sound (held_of table.now) ≡ true }
    ensures { Found link (held_of table.now).links result }
{
    let word = link.word();
    let place = table.below(u64::from(word));
    if place < table.count && table.words[place] == word {
        Ok(place)
    } else {
        Err(place)
    }
}

// Whether the address of a link has another class: that of the first link that is not below the address, if it has it.
#[tactic(auto, using(table::proofs::Stores::few, crate::proofs::Stands::another_address))]
pub(crate) fn other_class(table: &Table, link: Link) -> bool
    requires { is_sound (held_of table.now) ≡ true }
    ensures { result ≡ other_class link (held_of table.now).links }
{
    let start = table.below(u64::from(link.address) * ADDRESS_STEP);
    if table.count <= start {
        return false;
    }
    let word = table.words[start];
    Link::of(word).address == link.address && class_in(word) != class_in(link.word())
}
