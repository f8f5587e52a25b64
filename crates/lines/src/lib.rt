// The console of a key cabinet: lines of bytes come in, and each is answered by a line of text.
#![tactic(auto)]

pub mod answer;
pub mod fault;
pub mod letter;
pub mod parse;
pub mod reader;
#[cfg(test)]
mod tests;
