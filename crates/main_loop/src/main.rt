// The main loop of a device, piece by piece in docs/EMBEDDING.md: events in, reports and motor commands out.
#![tactic(auto)]

mod lines;

use answers::Answered;
use installs::install;
use kinds::Kind;
use lines::{end_line, write_cells, write_field};
use outputs::NO_REPORT;
use panel::Panel;
use params::Asked;
use readings::strips::strip;
use std::io::Print;
use tags::CELLS;
use telegrams::telegram;
use terminals::STRIP;
use time_steps::time_step;
use wiring::add_link;

// What a device hears: a telegram with its address and value, or that so many milliseconds have passed.
#[derive(Clone, Copy)]
enum Event {
    Telegram(u64, u64),
    Time(u64),
}

// Stands for the bus and the clock of a device.
const EVENTS: [Event; 8] = [
    Event::Time(500),
    Event::Telegram(300, 1),
    Event::Time(20_000),
    Event::Telegram(100, 1),
    Event::Time(500),
    Event::Telegram(300, 1),
    Event::Telegram(301, 1),
    Event::Time(60_000),
];

// A motor that is off.
const OFF: u8 = 0;

fn main(rt: HostRuntime) {
    let mut panel = fitted(&rt);
    for event in EVENTS {
        panel = turn(&rt, panel, event);
    }
}

// Blind 0 at terminal 4 and blind 1 at terminal 7; address 100 is the wind alarm of both, 300 their button.
fn fitted<R: Print>(rt: &R) -> Panel {
    let set = Asked::default_set();
    let short = Asked {
        mudt: 20_000,
        ..set
    };
    let one = accepted(rt, install(Panel::empty(), 0, 4, set));
    let two = accepted(rt, install(one, 1, 7, short));
    let windy = linked(rt, two, 100, Kind::Wa);
    linked(rt, windy, 300, Kind::Mud)
}

fn linked<R: Print>(rt: &R, panel: Panel, address: u64, kind: Kind) -> Panel {
    let first = accepted(rt, add_link(panel, address, 0, kind as u64));
    accepted(rt, add_link(first, address, 1, kind as u64))
}

// An edit that is refused leaves the panel as it was; a device would tell whoever asked for it.
fn accepted<R: Print>(rt: &R, done: Answered<Panel>) -> Panel {
    if let Err(refusal) = done.outcome {
        write_field(rt, b"refused ", u64::from(u8::from(refusal)));
        end_line(rt);
    }
    done.state
}

// One event and what comes of it. Refused calls leave the cells as they are here: nothing to report, every relay off.
fn turn<R: Print>(rt: &R, panel: Panel, event: Event) -> Panel {
    let mut reports = [NO_REPORT; CELLS];
    let mut motors = [OFF; STRIP];
    let heard = heed(panel, event, &mut reports);
    write_field(rt, b"answer ", u64::from(heard.number()));
    write_field(rt, b" count ", heard.count());
    hand_on(rt, &reports);
    let read = strip(heard.state, &mut motors);
    drive(rt, &motors);
    end_line(rt);
    read.state
}

fn heed(panel: Panel, event: Event, reports: &mut [u16]) -> Answered<Panel> {
    match event {
        Event::Telegram(address, value) => telegram(panel, address, value, reports),
        Event::Time(dt) => time_step(panel, dt, reports),
    }
}

// A device would send each report on the bus.
fn hand_on<R: Print>(rt: &R, reports: &[u16]) {
    write_cells(rt, b" report ", reports, NO_REPORT);
}

// A device would set the relays of each terminal.
fn drive<R: Print>(rt: &R, motors: &[u8]) {
    write_cells(rt, b" motor ", motors, OFF);
}
