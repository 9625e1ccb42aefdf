// Reading a sheet into a tree table that the caller lends.
#![tactic(auto)]

mod expected;
mod expressions;
pub mod faults;
mod forms;
mod items;
mod modules;
mod next;
mod placed;
pub mod read;
mod reader;
pub mod sheet;
mod starts;
mod steps;
#[cfg(test)]
mod tests;
pub mod theorems;
pub mod tree;
mod types;

pub use faults::{Fault, Layer};
pub use sheet::ReadSheet;
pub use tree::{ExpNode, Item, Node, Operator, TypeNode};
