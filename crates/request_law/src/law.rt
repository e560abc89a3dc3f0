ghost use Rattle.std.specs.Prelude.{◌≡◌, Bool, false, ℕ, List, ◌∷◌};
ghost use Rattle.end_protocol.specs.declared.messages.Message.{Message};
ghost use Rattle.request_meaning.specs.Links.{Link, Runs, start};
ghost use Rattle.request_law.specs.Law.{AreAllThere, IsInOrder, IsReadable};

/// Over a link whose ends do as a process does by its rules, in either version, whoever owns them in the meantime and however the link dies: requests
/// are accepted at most once and in the order in which they were issued, and a connect goes on with the reply to its own request.
pub fn requests_go_in_order()
    ensures { (version : ℕ) (l : Link) → Runs version start l → IsInOrder l }
{}

/// Over such a link, as long as neither end is destroyed, each end of a request or reply that is under way is in one place, and none is lost: in a packet
/// that is queued or on its way, with the request or reply in part, or with the connect.
pub fn ends_are_in_one_place()
    ensures { (version : ℕ) (l : Link) → Runs version start l → l.cut ≡ false → AreAllThere l }
{}

/// Over such a link, as long as neither end is destroyed, each message that comes to an end can be read there, but for a reply whose values have not the
/// types of the results that were asked for.
pub fn messages_can_be_read()
    ensures { (version : ℕ) (room : Bool) (l : Link) (m : Message) (rest : List Message) → Runs version start l → l.cut ≡ false → l.here ≡ m ∷ rest → IsReadable version room m l.near }
{}
