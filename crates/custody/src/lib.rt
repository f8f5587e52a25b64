// The key cabinet: a key of any commutative group, in shares that t of n holders open.
#![tactic(auto)]

pub mod cabinet;
mod checks;
mod dealing;
mod holders;
mod making;
mod opening;
