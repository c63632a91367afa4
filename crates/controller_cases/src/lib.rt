//! Cases of the cabinet's calls, and of whole runs of them.
#![tactic(auto)]

#[cfg(test)]
mod chains_of_grants;
#[cfg(test)]
mod full_record;
#[cfg(test)]
mod kept_states;
#[cfg(test)]
mod refused_calls;
#[cfg(test)]
mod samples;
#[cfg(test)]
mod slips;
#[cfg(test)]
mod visits;
#[cfg(test)]
mod whole_runs;
