// How a blind conducts itself: nothing runs here. specs/ says what a course of telegrams and
// milliseconds is, and proofs/ what every sound blind keeps in any of them.
#![tactic(auto)]
