// From the bytes of an item file and of a sheet to the line that is printed.
#![tactic(auto)]

pub mod printing;
pub mod setups;
mod tables;
mod telling;

pub use printing::{line, panel};
pub use setups::Setup;
