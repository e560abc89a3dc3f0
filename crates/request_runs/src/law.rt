ghost use Rattle.std.specs.Prelude.{◌≡◌, ◌≤◌, ◌<◌, ◌||◌, false, ℕ, List, [], ◌∷◌, ◌++◌, length, Option};
ghost use Rattle.charlotte_calls.specs.Setting.{IsValid};
ghost use Rattle.charlotte_calls.specs.declared.calls.Answer.{Answer as AnAnswer};
ghost use Rattle.charlotte_calls.specs.declared.calls.ServiceStep.{ServiceStep as AStep};
ghost use Rattle.charlotte_calls.specs.declared.names.EndId.{EndId};
ghost use Rattle.charlotte_calls.specs.declared.setting.Setting.{Setting as ASetting};
ghost use Rattle.service_step.specs.Run.{IsServiceRun};
ghost use Rattle.service_step.specs.State.{State};
ghost use Rattle.service_step.specs.declared.state.Message.{Message};
ghost use Rattle.service_streams.specs.Streams.{cancels_send};
ghost use Rattle.end_protocol.specs.Deeds.{Deed};
ghost use Rattle.language_links.specs.Acting.{Done};
ghost use Rattle.language_links.specs.Claims.{AreInOrder};
ghost use Rattle.process_changes.specs.Runs.{did};
ghost use Rattle.process_changes.specs.States.{DeedOn, State as AProcess};
ghost use Rattle.process_changes.specs.Processes.{IsRunning};
ghost use Rattle.process_changes.specs.Told.{IsTold};
ghost use Rattle.process_changes.specs.AtEnd.{AreAt, AreSingle, ChangesAt, IsToldAt, Seen, deeds_at, known_ledger, seen, total};
ghost use Rattle.process_changes.specs.Changes.{Changes};
ghost use Rattle.process_changes.specs.Ledgers.{Ledger};
ghost use Rattle.process_changes.specs.Telling.{ChangesByStep, Telling, Turn};
ghost use Rattle.request_runs.specs.Changing.{Becomes, IsHearing, IsStandingOf};
ghost use Rattle.request_runs.specs.Followed.{IsFollowed};
ghost use Rattle.request_runs.specs.Law.{AreExchangedBoth, HasAllEnds};
ghost use Rattle.request_runs.specs.Sides.{Courses, Pair, is_destroyed, new_pair};
ghost use Rattle.request_runs.specs.Told.{IsSpent, IsTrueAt, left_at};
ghost use Rattle.request_runs.specs.Ways.{HasWay, IsNextWay, IsWay};

/// After any events at a link that was just made, requests were accepted at most once and in the order in which they were issued, and each connect that
/// went on has the reply to its own request.
pub fn events_go_in_order()
    ensures { (version : ℕ) (p : Pair) → Courses version new_pair p → AreExchangedBoth p }
{}

/// As long as the service destroyed neither end, each end of a request or reply that is under way is in one place: in a packet that is queued or on its
/// way, with the request or reply in part, or with the connect.
pub fn events_keep_ends()
    ensures { (version : ℕ) (p : Pair) → Courses version new_pair p → is_destroyed p.near.standing || is_destroyed p.far.standing ≡ false → HasAllEnds p }
{}

/// Where the deeds of a run are, on each end and its opposite, those of events at a link, the claims on requests and replies hold of the run.
pub fn followed_runs_are_in_order()
    ensures { (version : ℕ) (ds : List Done) → ((x : EndId) → IsFollowed version x ds) → AreInOrder ds }
{}

/// In every run of the service what was sent on an end, after the messages of which the owners of its opposite were told, is a list, which may be empty:
/// what is on its way there.
pub fn ways_are_lists()
    ensures { (s : ASetting) (run : List (AStep × State)) → IsValid s → IsServiceRun s run → (e : EndId) → HasWay e run }
{}

/// A step of the service that cancels no send takes from that list the message of which it tells, which is the first, and adds the one that it sends behind
/// all others. So no other step changes it.
pub fn ways_go_on()
    ensures { (e : EndId) (past : List (AStep × State)) (made : AStep) (t : State) (before behind : List Message) → cancels_send e made ≡ false
        → IsWay e past before → IsWay e (past ++ (made, t) ∷ []) behind → IsNextWay e made before behind }
{}

/// A step of a process changes its ends one after the other, first by what its answer tells and then by what its threads do; and its deeds are those of
/// the changes.
pub fn steps_change_ends()
    ensures { (s : AProcess) (given : Option AnAnswer) → IsTold given → IsRunning s → ChangesByStep s given (did s given) }
{}

/// What a step of a process is told, seen at one end: one thing at most, with which it is in no more places than before.
pub fn tellings_are_seen_at_ends()
    ensures { (version : ℕ) (t : Turn) (x : EndId) (b : Ledger) (ds : List DeedOn) (c : Ledger) → Telling version t b ds c → AreSingle b.places
        → IsToldAt version t x b ds c }
{}

/// Where it is true, that is events at the link of the end, or none, with its deeds; and a message that is reported is the first that is coming. A Send
/// that was answered counts before. Once a receive is over, nothing is coming over a dead link.
pub fn tellings_are_events()
    ensures { (version : ℕ) (t : Turn) (x : EndId) (b : Ledger) (ds : List DeedOn) (c : Ledger) (p : Pair) (is : IsToldAt version t x b ds c)
        → total (seen x (known_ledger t b)) ≤ 1 → IsStandingOf (seen x (known_ledger t b)) p.near.standing → IsHearing (seen x (known_ledger t b)) p
        → IsTrueAt version t x b ds c p is
        → IsSpent p (seen x b).holding (seen x c).holding (left_at version t x b ds c is p.near.coming)
        → Becomes version p (deeds_at x ds) (seen x c) (left_at version t x b ds c is p.near.coming) }
{}

/// What a step of a process changes after what it was told, seen at one end: one change after the other, with the deeds on that end, in order. Each end
/// is in one place at most before, and there are numbers for all ends that the process got.
pub fn changes_are_seen_at_ends()
    ensures { (version : ℕ) (x : EndId) (b : Ledger) (ds : List DeedOn) (c : Ledger) → Changes version b ds c → AreSingle b.places
        → ((y : EndId) → total (seen y b) ≤ 1) → length c.places < 4294967295 → AreAt version x b ds c }
{}

/// These changes are events at the link of that end, or none, with their deeds.
pub fn changes_are_events()
    ensures { (version : ℕ) (p : Pair) (a : Seen) (ds : List Deed) (b : Seen) → ChangesAt version a ds b → total a ≤ 1
        → IsStandingOf a p.near.standing → IsHearing a p → Becomes version p ds b p.near.coming }
{}
