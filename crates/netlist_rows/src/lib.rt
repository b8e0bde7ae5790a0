//! Tests of `read_verilog`: texts of netlists with what a reader of the rules counts by hand. Its clause says of any
//! bytes what they mean; the rows show that it says what is meant, and that a call succeeds where there is memory.
//! They stand above `verilog_net`, so that it is not proved once more for them.
#![tactic(auto)]

#[cfg(test)]
mod module_errors;
#[cfg(test)]
mod name_faults;
#[cfg(test)]
mod operand_errors;
#[cfg(test)]
mod refused;
#[cfg(test)]
mod shown;
#[cfg(test)]
mod use_faults;
#[cfg(test)]
mod values;
