// The one line that tells the outcome of a sheet.
#![tactic(auto)]

pub mod answers;
mod buffer;
pub mod faults;
pub mod lines;
pub mod outcomes;
mod sinks;
pub mod theorems;
pub mod types;

pub use faults::TooShort;
pub use lines::{write_line, write_refusal};
pub use outcomes::{Layer, Outcome, Refusal, Value};
pub use types::ClosingType;
