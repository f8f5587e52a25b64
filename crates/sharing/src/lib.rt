// Threshold sharing of keys of any commutative group: schemes, dealing, and the tuple at a point.
//
// The tuples' inner arithmetic asks its callers for the right lengths; what the crate offers
// refuses them instead.
#![tactic(auto)]

mod dealing;
pub mod fault;
pub mod helpers;
pub mod lengths;
mod points;
pub mod scheme;
pub mod shares;
pub mod tuples;
