// The file: a reader that is fed bytes, sets the levels up and changes them as the records say, and what the listing prints.

#![tactic(auto)]

pub mod bytes;
pub mod feed;
pub mod kinds;
pub mod lines;
pub mod reader;
pub mod records;
