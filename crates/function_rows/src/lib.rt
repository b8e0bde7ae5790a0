//! Tests of functions of library cells from outside: texts with the expressions that a reader of Liberty's rules groups
//! by hand, and truth tables with values computed by hand. The clauses of `parse` and `Table` say of any text and any
//! function what comes of it; the rows show that they say what is meant, and that a call succeeds where there is
//! memory.
#![tactic(auto)]

#[cfg(test)]
mod tables;
#[cfg(test)]
mod texts;
