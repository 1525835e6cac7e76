//! The book of a campaign, checked row by row, and what its rows say of each mutation.
//!
//! A pair of a mutation and a test may have further rows where it was given up, each under a greater limit; its last one counts. The
//! tag script is asked on the last words of a mutation's tests (`Scripts`), and the tests that it asks on them are the read ones. A
//! book of the first format is judged as it is and known by its history, its upgrade to the second (`Rows`). In the proofs, `Asking`
//! has what follows for books: the test that is needed has no word yet, and is one of the campaign.
#![tactic(auto)]

mod answer;
pub mod book_laws;
mod bounds;
mod campaign;
mod check;
mod goal;
mod reads;
mod rounds;
mod script;
mod state;

pub use answer::Answer;
pub use bounds::bounds_of;
pub use campaign::{Campaign, EQ_KIND, NumberList, PlaceList, SIM_KIND};
pub use check::{BookError, RowFault, check_book};
pub use goal::{Goal, Want};
pub use rounds::{MAX_LIMIT, is_limit};
pub use script::{TestWord, has_tag};
pub use state::State;
