// The lines of a plant file on a sheet: the first, then the blinds by tag, then the links in table order.
ghost use Rattle.std.specs.Prelude.{◌≡◌, map};
ghost use Rattle.tags.specs.Tags.{places};
ghost use Rattle.table.specs.Links.{held_of};
ghost use Rattle.panel.specs.Panel.{model_of, found};
ghost use Rattle.texts.specs.Sheet.{sheet, puts};
ghost use Rattle.texts.specs.Lent.{Puts};
ghost use Rattle.fields.specs.Lines.{line_text};
ghost use Rattle.plant.specs.Written.{first_line, blind_line, link_line, seat_lines, blind_lines, plant_text};
ghost use Rattle.plant_writer.specs.Writer.{lines_text};

use fields::written::{put_fields, put_line};
use link::Link;
use panel::{Panel, Seat};
use plant::NEWEST;
use table::{MOST, Table};
use tags::CELLS;
use texts::Sheet;

// The whole file, from the front of a lent row on; how many bytes it has.
#[tactic(auto, using(crate::proofs::LinesText::file_put))]
pub(crate) fn put_lines(panel: &Panel, out: &mut [u8]) -> usize
    ensures { sheet out.new result ≡ puts (plant_text (model_of panel.now)) (sheet out.old 0) }
{
    let mut sheet = Sheet { bytes: out, at: 0 };
    put_first(&mut sheet);
    put_blinds(&mut sheet, panel);
    put_links(&mut sheet, &panel.table);
    sheet.at
}

#[tactic(auto, unfolding(texts::specs::Text::text, laws::specs::Fills::tabulate, plant::specs::Written::first_line))]
fn put_first(sheet: &mut Sheet<'_>)
    ensures { Puts (line_text first_line) sheet.old sheet.new }
{
    put_line(sheet, b"plant", &[NEWEST]);
}

// By the tag, as in panel_text, where it is said why this loop and the one over the links are not shared.
#[tactic(auto, using(crate::proofs::LinesText::blinds_none, crate::proofs::LinesText::blinds_more, panel::proofs::Seats::seat_found))]
fn put_blinds(sheet: &mut Sheet<'_>, panel: &Panel)
    ensures { Puts (lines_text (blind_lines places (model_of panel.now))) sheet.old sheet.new }
{
    for tag in 0..CELLS {
        put_seat(sheet, tag, panel.seat(tag));
    }
}

// A tag without a blind has no line.
#[tactic(auto, using(crate::proofs::LinesText::one_line), unfolding(texts::specs::Sheet::joined, texts::specs::Sheet::puts))]
fn put_seat(sheet: &mut Sheet<'_>, tag: usize, seat: Option<Seat>)
    ensures { Puts (lines_text (seat_lines tag (found seat))) sheet.old sheet.new }
{
    if let Some(seat) = seat {
        put_blind(sheet, tag, seat);
    }
}

#[tactic(auto, using(fields::proofs::FieldsText::put_line, fields::proofs::FieldsText::put_both), unfolding(texts::specs::Text::text, laws::specs::Fills::tabulate, plant::specs::Written::blind_line))]
fn put_blind(sheet: &mut Sheet<'_>, tag: usize, seat: Seat)
    ensures { Puts (line_text (blind_line tag seat)) sheet.old sheet.new }
{
    sheet.put_text(b"blind");
    put_fields(sheet, &[tag as u64, u64::from(seat.terminal)]);
    put_fields(sheet, &seat.blind.params.numbers());
    sheet.put(b'\n');
}

// A table that counts more links than it has places has the lines of those that it has.
#[tactic(auto, using(crate::proofs::LinesText::links_more, crate::proofs::LinesText::links_all, table::proofs::Stores::held_words), unfolding(texts::specs::Sheet::joined, texts::specs::Sheet::puts))]
fn put_links(sheet: &mut Sheet<'_>, table: &Table)
    ensures { Puts (lines_text (map link_line (held_of table.now).links)) sheet.old sheet.new }
{
    let words = &table.words[..table.count.min(MOST)];
    for &word in words {
        put_link(sheet, Link::of(word));
    }
}

#[tactic(auto, unfolding(texts::specs::Text::text, laws::specs::Fills::tabulate, plant::specs::Written::link_line))]
fn put_link(sheet: &mut Sheet<'_>, link: Link)
    ensures { Puts (line_text (link_line link)) sheet.old sheet.new }
{
    let numbers = [
        u64::from(link.address),
        u64::from(link.tag),
        u64::from(link.kind),
    ];
    put_line(sheet, b"link", &numbers);
}
