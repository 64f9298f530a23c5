// Document 01, "Links and telegrams": what a kind with a value says to a blind.
#![tactic(auto)]

ghost use Rattle.std.specs.Prelude.{◌≡◌};
ghost use Rattle.values.specs.Telegrams.{direction_of, forced_of, input_of};

use heights::Direction;
use inputs::Command;
use kinds::{Kind, UnknownKind};

// Kinds 0 to 3: one of the flags, and what it becomes.
#[derive(Clone, Copy)]
pub enum Flag {
    Wind(bool),
    Rain(bool),
    Frost(bool),
    Force(Option<Direction>),
}

// What a telegram says to a blind: kinds 0 to 3 set a flag, the others command.
#[derive(Clone, Copy)]
pub enum Input {
    Set(Flag),
    Command(Command),
}

impl Input {
    #[tactic(auto, unfolding(crate::specs::Telegrams::input_of, crate::specs::Telegrams::command_of))]
    pub fn of(kind: u8, value: u8) -> Input
        ensures { result ≡ input_of kind value }
    {
        match Kind::try_from(kind) {
            Ok(Kind::Wa) => Input::Set(Flag::Wind(value == 1)),
            Ok(Kind::Ra) => Input::Set(Flag::Rain(value == 1)),
            Ok(Kind::Fa) => Input::Set(Flag::Frost(value == 1)),
            Ok(Kind::Fo) => Input::Set(Flag::Force(forced_of(value))),
            Ok(Kind::Mud) => Input::Command(Command::Move(direction_of(value))),
            Ok(Kind::Stop) => Input::Command(Command::Stop),
            Ok(Kind::Ssud) => Input::Command(Command::Step(direction_of(value))),
            // A number that no kind has, which no sound table holds, commands as the last kind does.
            Ok(Kind::Sapbp) | Err(UnknownKind(_)) => Input::Command(Command::Position(value)),
        }
    }
}

// No `From`: a direction is another crate's, and only a MUD or an SSUD says it so.
fn direction_of(value: u8) -> Direction
    ensures { result ≡ direction_of value }
{
    match value {
        0 => Direction::Up,
        _ => Direction::Down,
    }
}

// No `From` here either: only an FO says it so.
fn forced_of(value: u8) -> Option<Direction>
    ensures { result ≡ forced_of value }
{
    match value {
        2 => Some(Direction::Up),
        3 => Some(Direction::Down),
        _ => None,
    }
}
