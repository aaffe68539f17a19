// What the tables say of a command of phase two, at both ends.
#![tactic(auto)]

mod decision;
mod questions;

pub use decision::rule_two;
