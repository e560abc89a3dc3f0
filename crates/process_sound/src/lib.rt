//! What holds of each state of a LYNX process between two steps, so that what its threads are given is what they ask for, and what it sends is a
//! packet. Definitions and lemmas alone.
//!
//! # What is proved
//! Its machine is sound; a thread that waits at an end waits there once and nowhere else, and asks for the results or arguments that it waits for;
//! each packet that is queued may be sent; a request in part is for one that serves its signature, and a reply in part has the results of the request
//! that is outstanding (`IsRunning` in `specs/Processes.antt`, over `IsGoing`, which holds within a step too, while some threads are still to have their
//! outcome). It holds at the start (`start_running` in `proofs/Starts.antt`), and a step keeps it, whatever the kernel answers (`step_running` in
//! `proofs/Runs.antt`). Where it holds, the process may make its next step (`MayStep` in `specs/May.antt`, by `may_step` in `proofs/Conditions.antt`).
//!
//! That texts are bytes no rule of a machine says, so of a packet that is sent it is supposed (`AreOfBytes` in `specs/Packets.antt`).
#![tactic(auto)]
