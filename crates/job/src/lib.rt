// Running a sheet that passed the check, over lent tables of cells and frames.
#![tactic(auto)]

mod actions;
pub mod answers;
mod arithmetic;
mod begin;
mod calls;
mod course;
mod entries;
pub mod jobs;
mod lookups;
mod machine;
mod perform;
pub mod reasons;
mod registers;
mod rule_choice;
mod steps;
pub mod tables;

pub use answers::Answer;
pub use jobs::Job;
pub use reasons::Reason;
pub use tables::{Cell, Frame, Value};
