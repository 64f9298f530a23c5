// Document 02, K3, a plant file: what is written of a panel, and which panel is read from a file. Nothing runs here; specs/
// says what a file is, and proofs/ what holds of every file and every panel.
#![tactic(auto)]

// The version that is written.
pub const NEWEST: u64 = 1;
