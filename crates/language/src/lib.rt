// The language: its theorems, and the one search along chains of bindings.
#![tactic(auto)]

pub mod bindings;
pub mod spans;
pub mod theorems;

pub use bindings::{Binding, Holds, nearest};
pub use spans::{Span, spelled};
