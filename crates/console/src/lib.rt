// The console: a line comes in, the cabinet does what it says, and an answer comes out.
#![tactic(auto)]

pub mod console;
pub mod fault;
pub mod held;
pub mod request;
pub mod seat;
