// What a call, its operations, an outcome and a report are, as functions: document 01's numbers and values, and the kinds that the
// driver's rules go by. Each equals its definition in the crate `calls`.
// By hand: the functions differ in a pattern, and no parameter can be one.
#![tactic(auto)]

pub mod call;
pub mod operation;
pub mod outcome;
pub mod report;
pub mod saved_call;
