// The flagged rows worked out anew, their old numbers kept and put back where a new one is not finite.

#![tactic(auto)]

pub mod cursor;
pub mod each;
pub mod flag;
pub mod guard;
pub mod parts;
pub mod renew_operator;
pub mod renew_transfer;
pub mod shape;
pub mod walk;

// The level of the first row that has a number that is not finite.
#[derive(Clone, Copy, PartialEq, Eq, Debug)]
pub struct NotFinite(pub usize);
