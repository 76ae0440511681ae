// The listing program: lines in, a line of answers for each.
#![tactic(auto)]

mod listing;
mod program;
mod session;

pub use listing::{Filled, Listing};
pub use program::run;
pub use session::Session;
