//! The code of a statement does what the statement means: it comes to the same actions and variables, raises the same exceptions, and waits
//! where the statement does. Definitions and lemmas alone.
//!
//! - `Runs` says this of a course and a thread: where the course goes on, so does the thread, at the address behind, with no operand and the
//!   same open tries and requests; where it raises, the thread comes to what that exception does there (`thrown`); where it waits, so does the
//!   code; and where a loop would make a turn more than n, the code is out after n instructions or more, with the same actions.
//! - The number n stays the same through a statement, and a turn of a loop takes one off: its jump counts for one instruction. So the code
//!   that is over within n instructions has no source that is out with loops of n turns.
//! - A try puts its entry before the open ones; an accept counts one more. `catches` and `closes` of the source take them away again.
//! - All answers are given beforehand. A moment is sound (`IsSound`) where its answers are those that its actions have left of them. What a
//!   statement does begins with what was done before it (`Extending`), so that answers which fit the whole fit each of its actions.
#![tactic(auto)]
