//! Tests of runs of scripts from outside: small scripts over a host that shows its calls, with the order, the lines and
//! the values that a reader of the Tcl rules finds by hand. The clause of `eval` says of any script and any host what
//! comes of it; the rows show that it says what is meant, and that a run succeeds where there is memory.
#![tactic(auto)]

#[cfg(test)]
mod recording;
#[cfg(test)]
mod scripts;
