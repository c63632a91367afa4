//! Cases of the numbered tables at their edges, and of the loans in every state.
#![tactic(auto)]

#[cfg(test)]
mod events_in_every_state;
#[cfg(test)]
mod loans_in_every_state;
#[cfg(test)]
mod register_at_edges;
#[cfg(test)]
mod short_tables;
