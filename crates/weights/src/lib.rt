// The third layer: interpolation, the chain of permittivities, the prolongation and its transpose.

#![tactic(auto)]

pub mod eps;
pub mod interpolate;
pub mod pair;
pub mod prolongation;
pub mod rows;
pub mod tables;
pub mod whole;
