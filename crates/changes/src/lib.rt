// A change: the structure compared with the lattice's, and the call.

#![tactic(auto)]

pub mod change;
pub mod compare;
