// Document 02, K1, "Why didn't it move?": what the last link of a telegram would do to one blind, or why it would do
// nothing. Nothing is sent, and nothing changes.
#![tactic(auto)]

ghost use Rattle.std.specs.Prelude.{◌≤◌, ◌-◌, ◌≡◌, true, length, take, drop};
ghost use Rattle.link.specs.Link.{last_address, last_tag};
ghost use Rattle.table.specs.Links.{held_of, links_to, links_of};
ghost use Rattle.table.specs.Sound as ofLinks;
ghost use Rattle.panel.specs.Panel.{model_of};
ghost use Rattle.reasons.specs.Reasons.{unjudged};
ghost use Rattle.why.specs.Why.{is_outside, judged_last, Spans, explained};

use blind::Blind;
use link::Link;
use link::words::{ADDRESS_STEP, TAG_STEP};
use panel::Panel;
use reasons::{Judged, Reason};
use std::ops::Range;
use table::Table;
use tags::PLACES;

#[tactic(auto, unfolding(crate::specs::Why::judged_in))]
pub fn why(panel: &Panel, tag: u64, address: u64, value: u64) -> Reason
    ensures { result ≡ explained tag address value (model_of panel.now) }
{
    if !panel.is_sound() {
        return Reason::NotSound;
    }
    if is_outside(tag, address, value) {
        return Reason::OutOfRange;
    }
    let Some(seat) = panel.seat(tag as usize) else {
        return Reason::NoBlind;
    };
    let span = find(&panel.table, tag, address);
    if span.start == span.end {
        return Reason::NotLinked;
    }
    let byte = value as u8;
    let judged = judge(&panel.table, span, seat.blind, byte);
    judged.reason(byte)
}

#[tactic(auto, unfolding(crate::specs::Why::is_outside))]
fn is_outside(tag: u64, address: u64, value: u64) -> bool
    ensures { result ≡ is_outside tag address value }
{
    PLACES <= tag || telegrams::is_outside(address, value)
}

// Where the links of a tag at an address stand: together, and they end where those of the next tag would start.
fn find(table: &Table, tag: u64, address: u64) -> Range<usize>
    requires sound { ofLinks.is_sound (held_of table.now) ≡ true }
    requires tag_le_last_tag { tag ≤ last_tag }
    requires address_le_last_address { address ≤ last_address }
    ensures { Spans (links_to address (links_of tag (held_of table.now).links)) (held_of table.now).links result.start result.end }
{
    let first = address * ADDRESS_STEP + tag * TAG_STEP;
    let start = table.below(first);
    let end = table.below(first + TAG_STEP);
    start..end
}

// Each link is judged on the blind that the one before it left; the last one stays.
fn judge(table: &Table, span: Range<usize>, blind: Blind, value: u8) -> Judged
    requires start_le_end { span.start ≤ span.end }
    requires end_in_bounds { span.end ≤ length (held_of table.now).links }
    ensures { result ≡ judged_last value (take (span.end - span.start) (drop span.start (held_of table.now).links)) (unjudged blind) }
{
    let start = span.start;
    let mut judged = Judged::unjudged(blind);
    for place in start..span.end {
        let link = Link::of(table.words[place]);
        judged = judged.next(link.kind, value);
    }
    judged
}
