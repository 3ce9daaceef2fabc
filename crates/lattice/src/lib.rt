// The lattice: its grid and axis kinds, the checks of the setup's input, the levels' lines, and the lattice rows.
// Each module here has its definitions in the file of specs/ with the same name.

#![tactic(auto)]

pub mod check;
pub mod curls;
pub mod grid;
pub mod input;
pub mod lattice;
pub mod levels;
pub mod line;
pub mod neighbours;
pub mod rows;
pub mod sound;
pub mod stretched;
