// All that the rules ask of heights: where a blind is, how long a full run lasts, where a running millisecond and a
// whole run lead, what a byte means as a target and which way it is, and what is told of a place.
#![tactic(auto)]

ghost use Rattle.std.specs.Prelude.{◌*◌, ◌<◌, ◌≡◌};
ghost use Rattle.laws.specs.Nearest.{nearest};
ghost use Rattle.heights.specs.Heights.{full_time, bottom, next_place, place_after, end_of, target, way_to, kept_between, raw, told};

use params::Params;

#[derive(Clone, Copy, PartialEq, Eq)]
pub enum Direction {
    Up,
    Down,
}

// The position is 0 at the top. It is counted and told also while it is not valid.
#[derive(Clone, Copy)]
pub struct Place {
    pub position: u32,
    pub valid: bool,
}

// The way to a target: the blind is there, or it goes in a direction for some milliseconds. `Met` is the paper's "length 0
// is a stop": as the None of an Option it would read as a target without a way.
#[derive(Clone, Copy)]
pub enum Way {
    Met,
    Go(Direction, u32),
}

// The lower end as a byte; the upper end is 0.
const BOTTOM_BYTE: u64 = 255;

// The least and the most that is told between the ends.
const LEAST: u64 = 1;

const MOST: u64 = 254;

// What is added where the position is valid.
const VALID: u64 = 256;

// How long a full run lasts.
#[tactic(auto, unfolding(crate::specs::Heights::full_time))]
pub fn full_time(direction: Direction, params: Params) -> u32
    ensures { result ≡ full_time direction params }
{
    params.mudt // the same up and down
}

// The position of the lower end; the upper end is 0.
#[tactic(auto, unfolding(crate::specs::Heights::bottom))]
pub fn bottom(params: Params) -> u32
    ensures { result ≡ bottom params }
{
    params.mudt // a running millisecond is one of height
}

// Where a full run ends.
#[tactic(auto, unfolding(crate::specs::Heights::end_of))]
pub fn end(direction: Direction, params: Params) -> Place
    ensures { result ≡ end_of direction params }
{
    match direction {
        Direction::Up => Place {
            position: 0,
            valid: true,
        },
        Direction::Down => Place {
            position: bottom(params),
            valid: true,
        },
    }
}

// The position that a byte asks for.
#[tactic(auto, unfolding(crate::specs::Heights::target))]
pub fn target(v: u8, params: Params) -> u32
    ensures { result ≡ target v params }
{
    let far = u64::from(v) * u64::from(bottom(params)) / BOTTOM_BYTE;
    far as u32
}

impl Place {
    // Where a blind is that nobody has run to an end yet.
    pub const UNKNOWN: Place = Place {
        position: 0,
        valid: false,
    };

    // After one running millisecond.
    #[tactic(auto, unfolding(crate::specs::Heights::place_after))]
    pub fn next(self, direction: Direction, params: Params) -> Place
        ensures { result ≡ next_place direction params self }
    {
        self.moved(1, direction, params)
    }

    // After some running milliseconds.
    #[tactic(auto, unfolding(crate::specs::Heights::place_after))]
    pub fn after(self, count: u32, direction: Direction, params: Params) -> Place
        ensures { result ≡ place_after count direction params self }
    {
        if count == 0 {
            self
        } else {
            self.moved(count, direction, params)
        }
    }

    // After one running millisecond or more, at once. After none a place stays as it is, even below the lower end.
    #[tactic(auto, using(crate::proofs::Ways::some_at_once))]
    fn moved(self, count: u32, direction: Direction, params: Params) -> Place
        requires { 0 < count }
        ensures { result ≡ place_after count direction params self }
    {
        let position = match direction {
            Direction::Up => self.position.saturating_sub(count),
            Direction::Down => self.position.saturating_add(count).min(bottom(params)),
        };
        Place { position, ..self }
    }

    #[tactic(auto, unfolding(crate::specs::Heights::way_to))]
    pub fn way_to(self, target: u32, params: Params) -> Way
        ensures { result ≡ way_to params target self }
    {
        if self.position < target {
            Way::Go(Direction::Down, target - self.position)
        } else if target < self.position {
            Way::Go(Direction::Up, self.position - target)
        } else {
            Way::Met
        }
    }

    // What a report tells of it.
    #[tactic(auto, unfolding(crate::specs::Heights::told), using(crate::proofs::Told::told_fits))]
    pub fn told(self, params: Params) -> u64
        ensures { result ≡ told params self }
    {
        let byte = raw(self.position, bottom(params));
        if self.valid { byte + VALID } else { byte }
    }
}

// A height as a byte: 0 at the top, 255 at the bottom, and between them the nearest part of the way.
#[tactic(auto, unfolding(crate::specs::Heights::raw))]
fn raw(position: u32, bottom: u32) -> u64
    ensures { result ≡ raw position bottom }
{
    if position == 0 {
        return 0;
    }
    if position == bottom {
        return BOTTOM_BYTE;
    }
    kept_between(nearest_part(position, bottom))
}

// The nearest of the parts of the way. A lower end of 0 is no sound blind's, but it must not be divided by.
#[tactic(auto, unfolding(laws::specs::Nearest::nearest))]
fn nearest_part(position: u32, bottom: u32) -> u64
    ensures { result ≡ nearest (position * 255) bottom }
{
    if bottom == 0 {
        return 0;
    }
    let whole = bottom as u64;
    let parts = position as u64 * BOTTOM_BYTE;
    let part = parts / whole;
    let left = parts % whole;
    if whole <= 2 * left { part + 1 } else { part } // a half goes up
}

// Short of an end neither 0 nor 255 is told.
fn kept_between(part: u64) -> u64
    ensures { result ≡ kept_between part }
{
    part.clamp(LEAST, MOST)
}
