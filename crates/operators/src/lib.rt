// Operators: the pattern of a row, rows from the lattice, Galerkin's, and rediscretized levels.

#![tactic(auto)]

pub mod averaged;
pub mod base;
pub mod columns;
pub mod compose;
pub mod galerkin;
pub mod levels;
pub mod nested;
pub mod pattern;
pub mod rediscretized;
pub mod stencil;
pub mod tables;
pub mod volumes;
pub mod words;
