// Who rules a blind: the first alarm that counts, the forced input or nobody, and the duty that follows
// from it.
#![tactic(auto)]

pub mod rulers;

// Whose word the blind follows. Commands reach the motor only while nobody rules. Nobody stands among them, since each
// of the five gives a duty.
#[derive(Clone, Copy)]
pub enum Ruler {
    Nobody,
    Wind,
    Rain,
    Frost,
    Forced,
}

#[derive(Clone, Copy, PartialEq, Eq)]
pub enum Duty {
    Free,
    Up,
    Down,
    Hold,
}
