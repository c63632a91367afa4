//! Cases of states, books, sheets and layers, at their edges.
#![tactic(auto)]

#[cfg(test)]
mod book_truths;
#[cfg(test)]
mod books_at_edges;
pub mod emergency;
#[cfg(test)]
mod layers;
#[cfg(test)]
mod printed_books;
#[cfg(test)]
mod rows_at_edges;
#[cfg(test)]
mod samples;
#[cfg(test)]
mod states_at_edges;
