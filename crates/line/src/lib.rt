// A line of the listing program: which command it is, and the text of its answer.
#![tactic(auto)]

mod answer;
mod command;
mod number;

pub use answer::Answer;
pub use command::{Command, read};
