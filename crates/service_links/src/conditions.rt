//! Which steps the ends alone allow.
ghost use Rattle.std.specs.Prelude.{◌≡◌};
ghost use Rattle.service_step.specs.Steps as steps;
ghost use Rattle.service_links.specs.Links.{ends_of};

use crate::{KeptEnd, Links};
use charlotte_calls::{EndId, LINK_LIMIT, LinkId, Side, Way};

/// Whether these are the two ends of this link, which has no ends yet.
#[tactic(auto, unfolding(service_step::specs::Ends::end_eq))]
pub fn is_new_pair(links: &Links, link: Option<LinkId>, a: EndId, b: EndId) -> bool
    ensures { result ≡ steps.is_new_pair (ends_of links.now) link a b }
{
    match link {
        Some(link) => {
            link.count < LINK_LIMIT
                && a == EndId {
                    link,
                    side: Side::A,
                }
                && b == a.opposite()
                && !links.look(a).place().is_made()
                && !links.look(b).place().is_made()
        }
        None => false,
    }
}

/// Whether an activity of a way on an end may still be cancelled, as far as it goes.
pub fn is_cancellable(way: Way, end: &KeptEnd) -> bool
    ensures { result ≡ steps.is_cancellable way end.now }
{
    match way {
        Way::Outward => end.is_waiting(),
        Way::Inward => end.inward().is_posted() || end.inward().is_matched(),
    }
}
