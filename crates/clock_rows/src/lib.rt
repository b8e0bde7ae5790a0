//! Tests of clock maps and of edge relations from outside: clock maps that were worked out by hand, and relations of
//! edges that a script compared pair by pair. The clauses of `clock_map` and `clock_tree` say of any modes and any edges
//! what comes of them; the rows show that they say what is meant, and that a call succeeds where there is memory.
#![tactic(auto)]

#[cfg(test)]
mod clock_maps;
#[cfg(test)]
mod relations;
