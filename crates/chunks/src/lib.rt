// No code: input in chunks as definitions (specs/), and what is shown of it (proofs/Laws/). The crates of the two ends show that their code meets these
// definitions.
#![tactic(auto)]
