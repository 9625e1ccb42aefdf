// Examples of the calls of the upper layers, as tests. They stand in a crate of their own, so that no layer has to be proved once more for
// its tests.
#![tactic(auto)]

#[cfg(test)]
mod check_tests;
#[cfg(test)]
mod job_tests;
#[cfg(test)]
mod line_tests;
