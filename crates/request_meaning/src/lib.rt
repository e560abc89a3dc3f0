//! Requests and replies over a link, whoever owns its two ends in the meantime: what was issued, accepted, replied and returned at an end, and what is
//! claimed of that. Definitions and worked examples alone.
#![tactic(auto)]
