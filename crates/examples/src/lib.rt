// The worked examples of document 01 that are marked *: no code, one table in specs/Examples.antt and its one statement, shown by computation
// of the definitions, in proofs/Worked.antt. It stands above every crate whose definitions it speaks of.
#![tactic(auto)]
