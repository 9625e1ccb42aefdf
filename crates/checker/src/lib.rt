// The check of a sheet that was read: scope and types, within the limits and the lent tables.
#![tactic(auto)]

mod call;
pub mod checks;
pub mod copying;
mod items;
mod kinds;
mod modules;
pub mod passes;
mod run;
mod sheets;

pub use checks::{check, pass};
pub use copying::copy_entries;
pub use passes::Pass;
