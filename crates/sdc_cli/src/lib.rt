//! The tool as a library: `run` does all the work of the program over any inputs and outputs.
//!
//! It reads the words of the command line, reads and understands the files, computes the report and writes
//! it, in this order, and the contract of `run` says what every answer means. It gives the program, on
//! which no test can stand, the real outside (`FileInputs`, `FileOutputs`) and the exit number of each
//! answer; it leaves the process itself, its words and its end, to the program.
#![tactic(auto)]

mod clock_groups;
mod clock_options;
mod clock_queries;
mod command_line;
mod edges_report;
mod exit_numbers;
mod fault_count;
mod fault_lines;
mod file_inputs;
mod file_outputs;
mod group_pairs;
mod items;
mod kind_names;
mod laws;
mod merge_rows;
mod merges;
mod mode_file;
mod mode_files;
mod mode_host;
mod mode_so_far;
mod named_clocks;
mod object_names;
mod outputs;
#[cfg(test)]
mod report_tests;
mod report_tree;
mod reports;
mod tool;
mod waveforms;

pub use exit_numbers::exit_number;
pub use fault_lines::announce;
pub use file_inputs::FileInputs;
pub use file_outputs::FileOutputs;
pub use laws::{
    command_lines_have_one_answer, files_have_one_outcome, files_say_printable_modes,
    modes_have_one_merge, modes_have_one_report,
};
pub use sdc_model::Status;
pub use source_types::Fault;
pub use tool::run;
