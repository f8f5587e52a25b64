// Many deposits or openings in one call, over sums and over blocks, for the benchmark that links
// this library.
#![tactic(auto)]

pub mod blocks;
mod rounds;
pub mod sums;
