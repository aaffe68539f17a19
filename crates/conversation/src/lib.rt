// No code: the calls of both ends as definitions (specs/), and what is shown of lists of calls (proofs/Laws/). The crates of the two ends show that their
// code meets these definitions.
#![tactic(auto)]
