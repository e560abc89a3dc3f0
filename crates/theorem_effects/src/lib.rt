//! What one event does in a world of kernels: the entries, processes and packets afterwards by those before and what the event did, and
//! from it how many packets are under way, where ends are and what is known and wanted of them. Definitions and lemmas alone.
//!
//! # What is proved
//! What each event does in a world, whatever the event: each entry, each process and each list of packets afterwards, and the service steps
//! (`Happens`). From that, of any event: a packet of a kind is under way afterwards exactly where one was left or one was sent; sums over
//! packets and the places where an end is, as equations; and of an end whose entry stays and about which no packet is taken or sent, its
//! fields, what is known and wanted of it and what the service says of it are unchanged. In a world for which the invariant holds
//! (`Invariant`): what each allowed event does, and that entries and packets name kernels that exist afterwards too. An event changes
//! nothing of a link neither of whose ends it touches (`IsAside`, and with it `IsSameLink`).
//! By `takes-happens`, `performs-happens`, `refused-happens` (`proofs/Happens.antt`), `under_way-after` (`proofs/Packets.antt`),
//! `sum_over-after`, `standing-after` (`proofs/Sums.antt`), `proofs/Aside.antt`, `proofs/Ends.antt`, `takes-allowed`, `performs-allowed`
//! (`proofs/Allowed.antt`), `named-after` (`proofs/NamedAfter.antt`), `takes-aside`, `performs-aside`, `aside-same_link`
//! (`proofs/Passed.antt`).
#![tactic(auto)]
