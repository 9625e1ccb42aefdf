// The words of a sheet.
#![tactic(auto)]

pub mod classes;
pub mod faults;
pub mod keywords;
pub mod marks;
pub mod names;
pub mod numbers;
pub mod scanner;
pub mod tallies;
pub mod tokens;

pub use faults::{Fault, measured};
pub use keywords::Keyword;
pub use marks::Mark;
pub use names::{is_keyword, same_name};
pub use numbers::figure;
pub use scanner::Cursor;
pub use tallies::tally;
pub use tokens::{Token, Word};

#[cfg(test)]
mod tests;
