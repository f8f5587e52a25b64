// What a call of the cabinet does: a state, a call, its answer and one step, in specs/. The code
// here is the public part of a state.
#![tactic(auto)]

pub mod ledger;
