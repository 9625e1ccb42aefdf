// The pantry: where a sheet's figures come from.
#![tactic(auto)]

pub mod entries;
pub mod factors;
pub mod faults;
pub mod fetching;
pub mod items;
pub mod loading;
pub mod pantries;
pub mod records;

pub use entries::{Answer, Entry, Kind};
pub use factors::{Factors, factor_pantry};
pub use faults::{LoadFault, NoAnswer};
pub use items::Items;
pub use loading::{EMPTY_FILE, item_pantry, load, no_items};
pub use pantries::{Pantry, ask};

#[cfg(test)]
mod tests;
