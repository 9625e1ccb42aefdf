// The type table and the scope table of a check, and the types of written types and expressions on them.
#![tactic(auto)]

pub mod expressions;
pub mod tables;
pub mod theorems;
pub mod types;
