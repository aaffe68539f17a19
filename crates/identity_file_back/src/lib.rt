// What `identity_file` writes, received by a plugin session just opened, reads back: specs/ReadBack.antt says what that is, proofs/Laws/ReadBack.antt shows it. No code.
#![tactic(auto)]
