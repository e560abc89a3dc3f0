//! The code of an expression does what the expression means: it leaves its value on the stack, or raises its exception, and finds each
//! operand of the kind that it needs. Definitions and lemmas alone.
//!
//! - A part of a module is a `Setting`: its code, what its names mean by the typing rules, and where they stand. Its variables keep values of
//!   their kinds (`HasKinds`). Ranges are of no concern: the code looks at the constructor of a value alone.
//! - Where no typing rule finds a fault, the code of an expression that stands at an address `Gives` what the expression gives: a value of
//!   the kind of the type that it shows, on the stack that was there, with the thread at the address behind; or what comes where its
//!   exception is raised. Chains, sums and terms go by induction over their members, each behind what is on the stack.
#![tactic(auto)]
