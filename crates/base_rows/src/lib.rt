//! Tests of numbers, times and the outside: numbers and times with values that Python's decimal module and Tcl computed,
//! and whole reads and writes over the four forms in memory. The clauses of `sdc_base` say of any number and any file
//! what comes of it; the rows show that they say what is meant, and that a call succeeds where there is memory.
#![tactic(auto)]

#[cfg(test)]
mod arithmetic;
#[cfg(test)]
mod division;
#[cfg(test)]
mod number_texts;
#[cfg(test)]
mod numbers;
#[cfg(test)]
mod outside;
