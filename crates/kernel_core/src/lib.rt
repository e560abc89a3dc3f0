//! One kernel: the calls of its processes, and the packets that it takes.
//!
//! That the table of a kernel is sound and names only kernels that exist, and that the sets of active ends are correct, is the invariant of
//! `Kernel`, so that no caller has to know of it.
//!
//! # What is proved
//! `start` gives the kernel with which a run starts. `call`, `ask`, `take` and `take_from` are the kernel step with its stamp, for every
//! call of a process that is running and for arbitrary packets. `ask_again` is `ask` of a process whose available answer is dropped. When
//! memory runs out the kernel is unchanged, and the packet comes back. Whether a process is running or waits, its available answer, the
//! stamp and the table are given exactly.
//! By clauses `state` of `start`; `step`, `stamp` and `same` of `call`, `ask`, `ask_again`, `take` and `take_from`, and `back` of the last
//! two; clauses of `running`, `waiting`, `answer`, `forget_answer`, `stamp`, `table`.
#![tactic(auto)]

mod calling;
mod deciding;
mod kernel;
mod room;
mod stamp;
mod state;
mod taking;

pub use kernel::Kernel;
pub use state::Request;
pub use taking::NotTaken;
