//! Tests of `read_lib`: texts of libraries with what a reader of the rules counts by hand. Its clause says of any
//! bytes what they mean; the rows show that it says what is meant, and that a call succeeds where there is memory.
//! They stand above `lib_cells`, so that it is not proved once more for them.
#![tactic(auto)]

#[cfg(test)]
mod cells;
#[cfg(test)]
mod faults;
#[cfg(test)]
mod limits;
#[cfg(test)]
mod shown;
#[cfg(test)]
mod syntax_errors;
#[cfg(test)]
mod timings;
