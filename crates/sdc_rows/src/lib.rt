//! Tests of the whole tool: worked examples with values from outside, texts as a person sees them, and an
//! outside that fails. They run `run` over forms in memory. What a clause of `run` says is not tested here. Beside
//! them each public name is used once, as a caller writes it.
#![tactic(auto)]

#[cfg(test)]
mod answers;
#[cfg(test)]
mod edges;
#[cfg(test)]
mod edges_files;
#[cfg(test)]
mod fault_lines;
#[cfg(test)]
mod merge;
#[cfg(test)]
mod merge_faults;
#[cfg(test)]
mod merge_length;
#[cfg(test)]
mod merge_words;
#[cfg(test)]
mod public_calls;
#[cfg(test)]
mod public_types;
#[cfg(test)]
mod runs;
#[cfg(test)]
mod scripts;
