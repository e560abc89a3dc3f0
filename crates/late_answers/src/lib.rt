//! Law: a Cancel is answered Late only where its message was already matched.
#![tactic(auto)]

mod law;

pub use law::late_is_by_match;
