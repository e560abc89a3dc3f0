//! The ends that requests and replies carry, in each run of LYNX processes on kernels; and with them all claims on the deeds of such a run. Laws, and the lemmas
//! that they stand on.
//!
//! # What is proved
//! Who accepts a request, or goes on with a reply, owns each living end among its values, from that deed to its next call (`ends_of_a_run_arrive`). From its issue to
//! its acceptance each end of a request is with the process that connects, with the owner of the opposite end, or in a message between the two
//! (`ends_of_a_run_are_carried`). So each run is linked (`each_run_is_linked`, `a_run_has_links`). For runs of at most 2^28 entries.
//!
//! What an end had kept that its process is to destroy is still with that process: `lost_ends`.
#![tactic(auto)]

mod law;

pub use law::{
    a_run_has_links, each_run_is_linked, ends_of_a_run_are_carried, ends_of_a_run_arrive,
};
