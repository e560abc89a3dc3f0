//! Why a line of a text is not that of a run of kernels: the line as it stands, what was expected in its place, and of what the kernels and the
//! link service keep then what bears on it. The kernels are any that follow a transcript (`Kernels` of `transcript_items`).
//!
//! # What is proved
//! `explain` gives three lines. The first is the line of the number as it stands in the text, byte by byte, with a mark where no line feed ends
//! it. Where that line can stand and the lines before it can be followed, the third tells just the items that bear on it, of what is kept once
//! these lines were followed, no more and no fewer, and the second is the one line that the kernels give there, or, where they give none, each
//! line that may stand there. Else the third says `nothing`, and the second the forms that `transcript_expected` tells of this line and place.
//! Each is one line of printable ASCII.
//! By the clause of `explain`; `AreWhy` in `specs/Why.antt`, `IsKept` in `specs/Before.antt`, `forms_told` and `TellsGiven` in
//! `specs/Expected.antt`.
#![tactic(auto)]

mod expected;
mod explaining;
mod following;
mod reached;

pub use explaining::explain;
