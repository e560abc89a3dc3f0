//! What events do to chains of forwarding entries and to packets on their track, whatever the event is. Definitions and lemmas alone.
//!
//! # What is proved
//! Where each entry of an end stays or another chain leads on from it, and the end is where a value of it was taken, chains to the end lead on
//! after an event, and a packet that was on its track is so still, or was taken.
//! By `IsLeading` in `specs/Leading.antt`; `chain-on`, `track-after` in `proofs/Tracks.antt`.
#![tactic(auto)]
