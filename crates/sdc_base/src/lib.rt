//! The lowest crate: what every other crate of the tool stands on, and nothing about timing.
//!
//! It gives the layer above: the two errors of memory (`NoMemory`, `Stop`), text and lists that contracts
//! see as lists (`Text`, `List`), copies that equal their original (`Duplicate`), exact decimal numbers and
//! times (`Fixed`, `time_text`, `TimeBuffer`), and the outside as two traits (`Inputs`, `Outputs`) with four forms in
//! memory and whole reads and writes over them. It leaves what a file holds to the crates above.
#![tactic(auto)]

mod arithmetic;
mod counting;
mod duplicate;
mod files;
mod fixed;
mod fixed_text;
mod lists;
mod mem_inputs;
mod mem_outputs;
mod memory;
mod memory_forms;
mod number_laws;
mod number_text;
mod outside;
mod rounding;
mod sure_inputs;
mod sure_outputs;
mod texts;
mod times;
mod whole;

pub use counting::next_count;
pub use duplicate::Duplicate;
pub use fixed::{Fixed, NumberError};
pub use lists::{Bits, List};
pub use memory::{At, NoMemory, Stop};
pub use memory_forms::{MemInputs, MemOutputs, SureInputs, SureOutputs};
pub use number_laws::{
    arithmetic_is_rounded, number_texts_read_back, reading_is_exact, time_texts_read_back,
    times_are_nearest,
};
pub use outside::{Channel, Inputs, NamedBytes, Outputs, Refusal};
pub use texts::Text;
pub use times::{TimeBuffer, time_text};
pub use whole::{MOST_BYTES, ReadStop, read_all, write_all};
