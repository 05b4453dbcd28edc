//! The program that is run in the place of a typed one: structs and unions go to functions and come back by pointers,
//! through hidden locals of the caller.
//!
//! Promise: `pass` gives the program that the typing puts in the place of one with its types as written. It is that
//! program itself where no struct or union goes by value (`plain_programs`) and all is in order (`ordered_programs`);
//! else it is made. What each step makes is said by `passing_steps`; here is the recursion over expressions and
//! statements, functions and types.
//! Definitions (`specs/`): `Passed` of `c_tree`; `Routines` (`IsPassedProgram`), `Passes`, `Numbered`, `Named`,
//! `Lists`. Main lemmas (`proofs/`): `Programs`, `Passing`.
#![tactic(auto)]

mod calls;
mod counts;
mod expressions;
mod functions;
mod names;
mod operands;
mod program;
mod statements;
mod types;

pub use program::pass;
