//! Tests of flattening over the two readers: netlists over small libraries, with what a reader of the rules counts by
//! hand. The clauses of `flatten` say of any netlist what comes of it; the rows show that they say what is meant.
#![tactic(auto)]

#[cfg(test)]
mod designs;
#[cfg(test)]
mod drivers;
#[cfg(test)]
mod instance_faults;
#[cfg(test)]
mod limits;
#[cfg(test)]
mod net_faults;
#[cfg(test)]
mod shown;
