// Commutative groups of keys: what a group is, and the groups that the cabinet brings.
#![tactic(auto)]

pub mod blocks;
mod bytes;
pub mod encoded;
pub mod fault;
pub mod group;
mod modulus;
pub mod pair;
pub mod sums;
#[cfg(test)]
mod tests;
pub mod units;
