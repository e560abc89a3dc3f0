//! A link as the link service and the owners of its two ends have it: what happens there is some steps of a link by itself, whatever the service and the
//! owners do. Laws, and their proof.
//!
//! # What is proved
//! Each event at a link (`Events` in `specs/Sides.antt`) is some steps of the link of `request_meaning` that stands so (`IsAs`), or none: `event_follows` in
//! `proofs/Events.antt`. So after any events at a new link its requests are in order (`events_go_in_order`), and as long as the service destroyed neither end
//! each end of a request or reply that is under way is in one place (`events_keep_ends`). A run has its requests in order whose deeds are, at each link, those of
//! events there (`followed_runs_are_in_order`; `IsFollowed` in `specs/Followed.antt`).
//!
//! In a run of the service what is on its way between two ends is a list (`ways_are_lists`), from whose front a step takes the message of which it tells, and
//! to which it adds the one that it sends (`ways_go_on`).
//!
//! A step of a process is changes of its ends (`steps_change_ends`). Seen at one end what it is told is one thing at most (`tellings_are_seen_at_ends`), and what
//! comes of that and what its threads do is one change after the other (`changes_are_seen_at_ends`); and all that is events at the link of that end, or none
//! (`tellings_are_events`, `changes_are_events`), where what is told is true (`IsTrueAt` in `specs/Told.antt`). An end that is in one place at most stays so, and
//! over a dead link nothing is coming to an end without a receive (`IsHearing` in `specs/Changing.antt`).
#![tactic(auto)]

mod law;

pub use law::{
    changes_are_events, changes_are_seen_at_ends, events_go_in_order, events_keep_ends,
    followed_runs_are_in_order, steps_change_ends, tellings_are_events, tellings_are_seen_at_ends,
    ways_are_lists, ways_go_on,
};
