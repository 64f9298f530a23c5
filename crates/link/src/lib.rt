// Document 01, "Links and telegrams": a link is (address 1 to 65535, tag, input kind).
#![tactic(auto)]

pub mod words;

ghost use Rattle.std.specs.Prelude.{◌≡◌};
ghost use Rattle.link.specs.Link.{is_address, link_of, link_made, is_below_ends, in_range};

use kinds::LAST;

const FIRST_ADDRESS: u64 = 1;

const LAST_ADDRESS: u64 = 65535;

const LAST_TAG: u64 = 63;

const LAST_KIND: u64 = LAST as u64;

#[derive(Clone, Copy)]
pub struct Link {
    pub address: u16,
    pub tag: u8,
    // A number and no `Kind`: a damaged table may hold any, and `in_range` has to see it.
    pub kind: u8,
}

// Whether a link can have this address.
pub fn is_address(address: u64) -> bool
    ensures { result ≡ is_address address }
{
    (FIRST_ADDRESS..=LAST_ADDRESS).contains(&address)
}

impl Link {
    // What numbers that do not fit are made into: no table holds it.
    pub const NOTHING: Link = Link {
        address: 0,
        tag: 0,
        kind: 0,
    };

    // Whether these numbers are a link's.
    #[tactic(auto, unfolding(crate::specs::Link::in_range))]
    pub fn fits(address: u64, tag: u64, kind: u64) -> bool
        ensures { result ≡ in_range (link_of address tag kind) }
    {
        is_address(address) && tag <= LAST_TAG && kind <= LAST_KIND
    }

    // The link of these numbers; what does not fit gives the link that no table holds. No Option: `link_made` stands in the
    // promise of the panel's edits, which judge the table, 12, before the range, 1.
    #[tactic(auto, unfolding(crate::specs::Link::link_made), using(crate::proofs::Ranges::range_reads))]
    pub fn made(address: u64, tag: u64, kind: u64) -> Link
        ensures { result ≡ link_made address tag kind }
    {
        if !Link::fits(address, tag, kind) {
            return Link::NOTHING;
        }
        Link {
            address: address as u16,
            tag: tag as u8,
            kind: kind as u8,
        }
    }

    // Whether none of its numbers is past its last one; an address of 0 is let through. By `&`, so that `clash` takes no branch.
    #[tactic(auto, unfolding(crate::specs::Link::is_below_ends))]
    pub fn below_ends(self) -> bool
        ensures { result ≡ is_below_ends self }
    {
        (u64::from(self.address) <= LAST_ADDRESS)
            & (u64::from(self.tag) <= LAST_TAG)
            & (u64::from(self.kind) <= LAST_KIND)
    }

    pub fn in_range(self) -> bool
        ensures { result ≡ in_range self }
    {
        Link::fits(
            u64::from(self.address),
            u64::from(self.tag),
            u64::from(self.kind),
        )
    }
}
