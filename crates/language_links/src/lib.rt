//! Language links: the deeds of all processes in the entries of a run, and what is claimed of them. Definitions and a worked run alone; that the claims
//! hold of each run is the law `each_run_is_linked` of `carried_ends`.
#![tactic(auto)]
