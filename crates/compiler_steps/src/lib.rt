//! How threads go through code: what a thread reaches, in however many instructions, what comes where an exception is raised, and that a
//! thread that is over stays so with more instructions. Definitions and lemmas alone.
//!
//! - Instructions *stand* in code at an address (`StandAt`), so no code is ever cut into pieces.
//! - A thread *reaches* what comes next (`Reaches`) where, however many instructions it is to make at last, with some more it comes first to
//!   this. That composes by the two bounds alone, and needs no relation of steps.
//! - What comes where an exception is raised (`thrown`) goes by the open tries, the open requests and the moment, and by no operand:
//!   tries are opened with an empty stack (`AreNested`). It closes the innermost request first, which is how a source closes them.
#![tactic(auto)]
