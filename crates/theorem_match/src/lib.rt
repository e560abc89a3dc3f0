//! A send is matched with the receive that wants its message, and its message leaves with the ends that it carries: the invariant of worlds
//! is preserved. Definitions and lemmas alone.
//!
//! # What is proved
//! The service simulates the event, and the invariant of worlds is preserved (`Goes`): with the taking of a want at an end that is here,
//! does not know of the death of its link, did not serve that receive, and has a send that waits, by the step match; and with every Send
//! that its kernel does not refuse, by the step send, and by match too where a receive of the opposite end wants its message. The premise
//! is that fewer than 2^31 events went before. Also: MATCH, with a message that carries any number of ends, is one part of an event,
//! whatever the event (`IsMatching`); after it all clauses on links are true of the state after the step match, which is allowed. Where
//! ends leave in a packet (`IsCarrying`), each clause that is not about the packet is preserved: what is known, since hops increase; what
//! is wanted, since ends in messages are idle; and which packets are right.
//! By `want-matched-goes` (`proofs/Wants.antt`), `send-goes`, `matches-goes` (`proofs/Sends.antt`), `right-matched`, `links-matched`,
//! `step-matched` (`proofs/Match.antt`), `right-sent` (`proofs/SentRight.antt`), `links-sent` (`proofs/SentLinks.antt`), `honest-carried`,
//! `wanted-carried`, `right-carried` (`proofs/Carrying.antt`).
#![tactic(auto)]
