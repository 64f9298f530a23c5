// The three demands, and the cases W1 to W12: nothing runs here. specs/ has one type for all calls of
// the panel and what each does; proofs/ has what the electrician asked for.
#![tactic(auto)]
