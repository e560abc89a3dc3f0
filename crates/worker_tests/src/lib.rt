//! Tests of runs of nodes, one after the other and with a worker for each, through `start_nodes`, `run_serial`, `run_nodes`,
//! `run_nodes_with` and `run_programs`: lists of calls on one kernel and on several. Each transcript, the merge of the nodes' journals, is read by `audit`.
//! A plan is run through `lynx`.
#![tactic(auto)]

#[cfg(test)]
mod besides;
#[cfg(test)]
mod gates;
#[cfg(test)]
mod nodes;
#[cfg(test)]
mod plans;
#[cfg(test)]
mod programs;
#[cfg(test)]
mod random;
#[cfg(test)]
mod runs;
#[cfg(test)]
mod snapshots;
#[cfg(test)]
mod workers;
