// A blind in one line of text, put on a lent sheet: its tag and terminal, its parameters, its state and its motion.
#![tactic(auto)]

ghost use Rattle.std.specs.Prelude.{cond};
ghost use Rattle.params.specs.Numbers.{numbers_of};
ghost use Rattle.texts.specs.Lent.{Puts};
ghost use Rattle.blind_text.specs.BlindText.{set_text, alarms_text, way_text, position_text, state_text, blind_text};

use blind::{Blind, Flags};
use decimals::put_number;
use heights::{Direction, Place};
use motion_text::{put_direction, put_motion};
use params::Params;
use shows::numbers::put_spaced;
use texts::Sheet;

pub fn put_blind(sheet: &mut Sheet<'_>, tag: usize, terminal: u8, blind: Blind)
    ensures { Puts (blind_text tag terminal blind) sheet.old sheet.new }
{
    sheet.put_text(b" | blind");
    put_spaced(sheet, tag as u64);
    put_spaced(sheet, u64::from(terminal));
    put_params(sheet, blind.params);
    put_state(sheet, blind);
    put_motion(sheet, blind.motion);
}

#[tactic(auto, using(texts::proofs::Sheets::each_none, texts::proofs::Sheets::each_more), unfolding(crate::specs::BlindText::set_text))]
fn put_params(sheet: &mut Sheet<'_>, params: Params)
    ensures { Puts (set_text (numbers_of params)) sheet.old sheet.new }
{
    for number in params.numbers() {
        put_spaced(sheet, number);
    }
}

fn put_state(sheet: &mut Sheet<'_>, blind: Blind)
    ensures { Puts (state_text blind) sheet.old sheet.new }
{
    put_position(sheet, blind.place);
    put_alarms(sheet, blind.flags);
    sheet.put_text(b" forced=");
    put_way(sheet, blind.flags.forced);
    sheet.put_text(b" last=");
    put_way(sheet, blind.last);
}

fn put_position(sheet: &mut Sheet<'_>, place: Place)
    ensures { Puts (position_text place.position place.valid) sheet.old sheet.new }
{
    sheet.put_text(b" pos=");
    put_number(sheet, u64::from(place.position));
    put_either(sheet, place.valid, b" valid=1", b" valid=0");
}

fn put_alarms(sheet: &mut Sheet<'_>, flags: Flags)
    ensures { Puts (alarms_text flags) sheet.old sheet.new }
{
    sheet.put_text(b" alarms=");
    put_either(sheet, flags.wind, b"w", b"-");
    put_either(sheet, flags.rain, b"r", b"-");
    put_either(sheet, flags.frost, b"f", b"-");
}

// One text where something is so, and another where it is not.
fn put_either(sheet: &mut Sheet<'_>, so: bool, yes: &[u8], no: &[u8])
    ensures { Puts (cond so yes.now no.now) sheet.old sheet.new }
{
    sheet.put_text(if so { yes } else { no });
}

#[tactic(auto, unfolding(crate::specs::BlindText::way_text, texts::specs::Text::text, laws::specs::Fills::tabulate))]
fn put_way(sheet: &mut Sheet<'_>, way: Option<Direction>)
    ensures { Puts (way_text way) sheet.old sheet.new }
{
    match way {
        Some(direction) => put_direction(sheet, direction),
        None => sheet.put(b'-'),
    }
}
