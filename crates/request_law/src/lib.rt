//! Requests are accepted at most once and in order, and replies go to their requests: over a link by itself, whoever owns its two ends. A law, and its
//! proof.
//!
//! # What is proved
//! Whatever happens at the two ends of a link by the rules of `end_protocol` (threads ask, messages are sent, come, are heard or lost, ends move, the link
//! dies), what was accepted at one end is a prefix of what was issued at the other, with equal numbers, signatures, values and ends; what was returned is
//! a prefix of what the other replied; and the replies have the numbers of what was accepted, in order (`requests_go_in_order`; `IsInOrder` in
//! `specs/Law.antt`, over `Runs` of `request_meaning`).
//!
//! As long as the link lives each end of a request or reply that is under way is in one place (`ends_are_in_one_place`),
//! and each message that comes can be read, but for a reply of other types than the results (`messages_can_be_read`).
//!
//! By the invariant `IsLink` of `request_meaning`: while the link lives the requests of each way are in a phase, which says what both ends keep and what
//! is on its way between them; once it was cut the rest of a request or reply may still come. Each step keeps it (`step_keeps` in `proofs/Run.antt`).
#![tactic(auto)]

mod law;

pub use law::{ends_are_in_one_place, messages_can_be_read, requests_go_in_order};
