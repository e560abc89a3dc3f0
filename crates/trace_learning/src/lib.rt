//! An end that is here and does not know of the death of its link hears where its opposite is: that keeps all that is true of the traces of ends.
//! Definitions and lemmas alone.
//!
//! # What is proved
//! By a packet that tells where its opposite is, the hint of the end is learned; if it rises, an end with a trail tells its place there, and what it is
//! asked for it was asked for, or the packet asks for it. So a mark is asked for from its own kernel alone, since nothing newer than the mark is heard of
//! its end. Such are: a moved; a want or an unwant of a receive that was served; a want that is kept; an unwant that takes a receive back; an unwanted
//! that answers a Cancel; and a taken that completes a send.
//! By `IsLearned` in `specs/Learned.antt`; `learned-traced` in `proofs/Learned.antt`; `moved-traced`, `served-traced`, `kept-traced`, `voided-traced`,
//! `freed-traced`, `completed-traced` in `proofs/Learns.antt`.
#![tactic(auto)]
