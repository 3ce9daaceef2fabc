// The rows that a change reaches, as flags.

#![tactic(auto)]

pub mod flags;
pub mod hits;
