// Answers as text: numbers with their counts, and cells, each put on a lent sheet.
#![tactic(auto)]

pub mod cells;
pub mod numbers;
