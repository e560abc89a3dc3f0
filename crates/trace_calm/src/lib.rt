//! Events by which no end moves, learns, is made or destroyed keep all that is true of the traces of ends. Definitions and lemmas alone.
//!
//! # What is proved
//! An event is calm where entries keep all that the clauses on traces speak of, but that what ends left behind is erased as it should be, and each
//! packet that is sent was passed on, asks for a receive of an end that is here, or takes away what ends left behind. It keeps all clauses. Such are:
//! a call that its kernel refuses; a Print, a Wait, a Receive, a Cancel, and a Send whose message waits; a packet that is dropped or passed on; a
//! forget that erases a forwarding entry, and a known that clears a trail; a goneseen or a gone that erases a mark, and a gone at an end that knows of
//! the death already.
//! By `IsCalm` in `specs/Calm.antt` and `IsSteady` in `specs/Steady.antt`; `calm-traced`, `call-traced`, `refused-traced`, `dropped-traced`,
//! `passed-traced`, `forget-traced`, `known-traced`, `erased-traced`, `dead-gone-traced` in `proofs/`.
#![tactic(auto)]
