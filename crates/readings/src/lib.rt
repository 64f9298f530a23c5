// The calls that only read the panel: the strip reading and the inventory. Each first judges, in the order of document
// 01, and changes nothing.
#![tactic(auto)]

pub mod inventory;
pub mod strips;
