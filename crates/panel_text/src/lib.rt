// The whole panel in one line: each blind by its tag with all that it holds, then each link in table order.
#![tactic(auto)]

ghost use Rattle.std.specs.Prelude.{◌≡◌};
ghost use Rattle.tags.specs.Tags.{places};
ghost use Rattle.table.specs.Links.{held_of};
ghost use Rattle.panel.specs.Panel.{model_of, seats_of, found};
ghost use Rattle.texts.specs.Sheet.{sheet, puts, each};
ghost use Rattle.texts.specs.Lent.{Puts};
ghost use Rattle.panel_text.specs.PanelText.{seat_text, link_text, links_text, panel_text};

use blind_text::put_blind;
use link::Link;
use panel::{Panel, Seat};
use shows::numbers::put_spaced;
use table::{MOST, Table};
use tags::CELLS;
use texts::Sheet;

pub fn put_panel(sheet: &mut Sheet<'_>, panel: &Panel)
    ensures { Puts (panel_text (model_of panel.now)) sheet.old sheet.new }
{
    sheet.at = put_on_row(sheet.bytes, sheet.at, panel);
}

// On a sheet of its own: through a lent one each byte waits for the place that the one before stored.
fn put_on_row(row: &mut [u8], at: usize, panel: &Panel) -> usize
    ensures { sheet row.new result ≡ puts (panel_text (model_of panel.now)) (sheet row.old at) }
{
    let mut sheet = Sheet { bytes: row, at };
    put_parts(&mut sheet, panel);
    sheet.at
}

fn put_parts(sheet: &mut Sheet<'_>, panel: &Panel)
    ensures { Puts (panel_text (model_of panel.now)) sheet.old sheet.new }
{
    sheet.put_text(b"panel");
    put_blinds(sheet, panel);
    put_links(sheet, &panel.table);
}

// By the tag, which a seat is asked for by. plant_writer has this loop and the one over the links too: one function for both,
// handed what to put, would need a clause about that, longer than the loops.
#[tactic(auto, using(texts::proofs::Sheets::each_none, texts::proofs::Sheets::each_more, panel::proofs::Seats::seat_found))]
fn put_blinds(sheet: &mut Sheet<'_>, panel: &Panel)
    ensures { Puts (each (λ tag. seat_text tag (seats_of panel.now tag)) places) sheet.old sheet.new }
{
    for tag in 0..CELLS {
        put_seat(sheet, tag, panel.seat(tag));
    }
}

// A tag without a blind shows nothing.
#[tactic(auto, unfolding(texts::specs::Sheet::puts))]
fn put_seat(sheet: &mut Sheet<'_>, tag: usize, seat: Option<Seat>)
    ensures { Puts (seat_text tag (found seat)) sheet.old sheet.new }
{
    if let Some(seat) = seat {
        put_blind(sheet, tag, seat.terminal, seat.blind);
    }
}

// A table that counts more links than it has places shows those that it has.
#[tactic(auto, using(texts::proofs::Sheets::each_none, texts::proofs::Sheets::each_more, table::proofs::Stores::of_word_at))]
fn put_links(sheet: &mut Sheet<'_>, table: &Table)
    ensures { Puts (links_text (held_of table.now).links) sheet.old sheet.new }
{
    let words = &table.words[..table.count.min(MOST)];
    for &word in words {
        put_link(sheet, Link::of(word));
    }
}

fn put_link(sheet: &mut Sheet<'_>, link: Link)
    ensures { Puts (link_text link) sheet.old sheet.new }
{
    sheet.put_text(b" | link");
    put_spaced(sheet, u64::from(link.address));
    put_spaced(sheet, u64::from(link.tag));
    put_spaced(sheet, u64::from(link.kind));
}
