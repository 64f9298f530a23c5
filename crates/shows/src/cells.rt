// The cells of an answer line: those that say something, each after its place; a refused call has none to show.
ghost use Rattle.texts.specs.Lent.{Puts};
ghost use Rattle.answers.specs.Numbers.{answer_of, count_of};
ghost use Rattle.shows.specs.Cells.{cell_text, cells_text, counted_with};

use crate::numbers::{put_counted, put_spaced};
use answers::{Refusal, number};
use decimals::put_number;
use texts::Sheet;

// The answer of a call that was lent cells. A cell that holds the idle value says nothing.
#[tactic(auto, using(texts::proofs::Sheets::pieces), unfolding(crate::specs::Cells::counted_with, texts::specs::Text::text, laws::specs::Fills::tabulate))]
pub fn put_with_cells(sheet: &mut Sheet<'_>, number: u8, count: u64, idle: u16, cells: &[u16])
    ensures { Puts (counted_with idle number count cells.now) sheet.old sheet.new }
{
    put_counted(sheet, number, count);
    // 0: the call is done.
    if number == 0 {
        put_cells(sheet, idle, cells);
    } else {
        sheet.put_text(b" -");
    }
}

// The same of an outcome.
pub fn put_outcome_with_cells(
    sheet: &mut Sheet<'_>,
    outcome: Result<u64, Refusal>,
    idle: u16,
    cells: &[u16],
)
    ensures { Puts (counted_with idle (answer_of outcome) (count_of outcome) cells.now) sheet.old sheet.new }
{
    put_with_cells(sheet, number(outcome), outcome.unwrap_or(0), idle, cells);
}

#[tactic(auto, using(texts::proofs::Sheets::each_none, texts::proofs::Sheets::each_more), unfolding(crate::specs::Cells::cells_text))]
fn put_cells(sheet: &mut Sheet<'_>, idle: u16, cells: &[u16])
    ensures { Puts (cells_text idle cells.now) sheet.old sheet.new }
{
    for (place, &cell) in cells.iter().enumerate() {
        put_cell(sheet, idle, place, cell);
    }
}

#[tactic(auto, using(texts::proofs::Sheets::pieces), unfolding(crate::specs::Cells::cell_text, crate::specs::Cells::cell_shown, texts::specs::Text::text, laws::specs::Fills::tabulate, texts::specs::Sheet::puts))]
fn put_cell(sheet: &mut Sheet<'_>, idle: u16, place: usize, cell: u16)
    ensures { Puts (cell_text idle place cell) sheet.old sheet.new }
{
    if cell != idle {
        put_spaced(sheet, place as u64);
        sheet.put(b'=');
        put_number(sheet, u64::from(cell));
    }
}
