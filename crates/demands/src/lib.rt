// The page that a reader opens first: demands 1 to 3 in one file, proofs/Demands.antt, over the definitions that the contracts of `client` and `plugin` cite. No code; each
// statement cites its proof in the crate below, where a wrong definition is refused.
#![tactic(auto)]
