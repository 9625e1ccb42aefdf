#![tactic(auto)]

pub mod faults;
pub mod theorems;
