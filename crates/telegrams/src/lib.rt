// Document 01, "Links and telegrams": a telegram goes to every link of its address in table order, and answers how
// many there were. It is judged as a whole before the first blind hears of it.
#![tactic(auto)]

ghost use Rattle.std.specs.Prelude.{◌<◌, ◌≤◌, ◌+◌, ◌≡◌, length, get_or, IfOk};
ghost use Rattle.answers.specs.Numbers.{answer_of};
ghost use Rattle.answers.specs.Answers.{refusal};
ghost use Rattle.kinds.specs.Kinds.{class_of};
ghost use Rattle.link.specs.Link.{of_word};
ghost use Rattle.table.specs.Sound as ofLinks;
ghost use Rattle.rules.specs.Rules.{heeded};
ghost use Rattle.values.specs.Telegrams.{input_of};
ghost use Rattle.panel.specs.Panel.{model_of};
ghost use Rattle.panel.specs.Calls.{row, checks, Does};
ghost use Rattle.telegrams.specs.Telegrams.{is_outside, link_checks, Together, telegram_rule};

use answers::{Answered, Refusal};
use blind::Blind;
use link::words::{ADDRESS_STEP, class_in};
use link::{Link, is_address};
use outputs::{NO_REPORT, report};
use panel::Panel;
use rules::heed;
use tags::CELLS;
use values::Input;

const LAST_VALUE: u64 = 255;

// The links speak to the panel itself; a copy of its seats tells each cell what stood there before the whole call. Address and
// value are numbers of any size, as a caller has them, and no type.
#[tactic(auto, unfolding(crate::specs::Telegrams::telegram_rule, panel::specs::Calls::checks))]
pub fn telegram(mut panel: Panel, address: u64, value: u64, cells: &mut [u16]) -> Answered<Panel>
    ensures { Does (telegram_rule address value) panel (row cells.old) result (row cells.new) }
{
    if cells.len() != CELLS {
        return Answered::refused(panel, Refusal::WrongCells);
    }
    let reach = match judge(&panel, address, value) {
        Ok(reach) => reach,
        Err(refusal) => return Answered::refused(panel, refusal),
    };
    cells.fill(NO_REPORT);
    let before = panel.seats;
    let count = reach.count;
    let byte = value as u8;
    // By the turn: the words stand in the panel that the turn writes, and lent as a row they would be no plainer.
    for turn in 0..count {
        let link = link_at(&panel.table.words, reach.place(turn));
        let tag = link.tag as usize;
        let old = before[tag].blind;
        let now = panel.seats[tag].blind;
        let new = hear(now, link, byte);
        panel.seats[tag].blind = new;
        cells[tag] = report(old, new) as u16;
    }
    Answered::done(panel, count as u64)
}

// The links that a telegram reaches.
#[derive(Clone, Copy)]
struct Reach {
    start: usize,
    count: usize,
}

impl Reach {
    // Where the link stands whose turn it is: they are served in table order.
    fn place(self, turn: usize) -> usize
        requires turn_lt_count { turn < self.count }
        requires count_bound { self.start + self.count ≤ ofLinks.most }
        ensures { result ≡ self.start + turn }
    {
        self.start + turn
    }
}

// The links of the address are looked up once, for their number, their class and their place: they stand together, and
// end where those of the next address start. All of them have one class, so the first tells it.
fn judge(panel: &Panel, address: u64, value: u64) -> Result<Reach, Refusal>
    requires { length panel.now.table.words ≡ ofLinks.most }
    ensures answer { answer_of result ≡ refusal (checks (model_of panel.now) (is_outside address value) (link_checks address value (model_of panel.now).table.links)) }
    ensures reach { IfOk result (λ reach. Together address (model_of panel.now).table.links reach.start reach.count) }
{
    if !panel.is_sound() {
        return Err(Refusal::NotSound);
    }
    if is_outside(address, value) {
        return Err(Refusal::OutOfRange);
    }
    let start = panel.table.below(address * ADDRESS_STEP);
    let end = panel.table.below((address + 1) * ADDRESS_STEP);
    let count = end - start;
    if count == 0 {
        return Err(Refusal::NoLink);
    }
    let first = panel.table.words[start];
    if class(first) < value {
        return Err(Refusal::NotOfTheClass);
    }
    Ok(Reach { start, count })
}

// Whether a telegram cannot have this address or this value.
#[tactic(auto, unfolding(crate::specs::Telegrams::is_outside))]
pub fn is_outside(address: u64, value: u64) -> bool
    ensures { result ≡ is_outside address value }
{
    !is_address(address) || LAST_VALUE < value
}

// The greatest value that a word's kind takes.
fn class(word: u32) -> u64
    ensures { result ≡ class_of (of_word word).kind }
{
    u64::from(class_in(word))
}

fn link_at(words: &[u32], place: usize) -> Link
    requires { place < length words.now }
    ensures { result ≡ of_word (get_or words.now place 0) }
{
    Link::of(words[place])
}

fn hear(blind: Blind, link: Link, value: u8) -> Blind
    ensures { result ≡ heeded (input_of link.kind value) blind }
{
    heed(blind, Input::of(link.kind, value))
}
