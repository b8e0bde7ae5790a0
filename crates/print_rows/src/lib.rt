//! Tests of printed files from outside: files as a person wrote them down. The clauses of `sdc_print` say of any mode that
//! can be printed what its file is; the rows show that they say what is meant, and that a call succeeds where there is
//! memory.
#![tactic(auto)]

#[cfg(test)]
mod files;
#[cfg(test)]
mod printable_modes;
