//! Whole reads and whole writes over the outside.

ghost use Rattle.std.specs.Prelude.{◌≡◌, ◌<◌, ◌≤◌, IfOk, OnOk, length, vec_len};
ghost use Rattle.sdc_base.specs.declared.outside.Refusal.{Refusal};
ghost use Rattle.sdc_base.specs.declared.whole.ReadStop.TheVariants as stop;
ghost use Rattle.sdc_base.specs.Counting.{Rose};
ghost use Rattle.sdc_base.specs.Files.{ReadsRest, ReadsWhole, stop_of};
ghost use Rattle.sdc_base.specs.Channels.{WritesAll};

use crate::lists::List;
use crate::memory::NoMemory;
use crate::outside::{Channel, Inputs, Outputs, Refusal};
use std::alloc::{AllocError, Global};
use thiserror::Error;

/// The greatest number of bytes of a file that is read, and of a merged text.
pub const MOST_BYTES: usize = 268_435_456;

/// Why a file was not read to its end.
#[derive(Clone, Copy, Debug, Error)]
pub enum ReadStop {
    /// The outside failed, and the count of faults tells it.
    #[error("the outside failed")]
    Failed,
    /// The file has more than `MOST_BYTES` bytes.
    #[error("more than 268,435,456 bytes")]
    TooLong,
    #[error("out of memory")]
    NoMemory,
}

/// The number of bytes that one call of the outside is asked for.
const BUFFER_BYTES: usize = 65_536;

impl From<Refusal> for ReadStop {
    ghost from_gives = { λ refusal answer. answer ≡ stop_of refusal };

    fn from(refusal: Refusal) -> ReadStop {
        match refusal {
            Refusal::Failed => ReadStop::Failed,
            Refusal::NoMemory => ReadStop::NoMemory,
        }
    }
}

impl From<NoMemory> for ReadStop {
    ghost from_gives = { λ _ answer. answer ≡ stop.NoMemory };

    fn from(_error: NoMemory) -> ReadStop {
        ReadStop::NoMemory
    }
}

/// The bytes of the file of a name, from its start to its end. They are read in pieces, and no piece
/// is asked for once more than `MOST_BYTES` bytes were read.
///
/// Errors: `Failed` where the outside failed, `TooLong` where the file has more than `MOST_BYTES`
/// bytes, and want of memory.
pub fn read_all<I: Inputs>(alloc: Global, inputs: &mut I, name: &str) -> Result<List<u8>, ReadStop>
    ensures whole { ReadsWhole name.now result (I.contents inputs.old) (I.contents inputs.new) }
    ensures limit { IfOk result (λ bytes. length bytes ≤ MOST_BYTES) }
    ensures faults { I.faults inputs.old ≤ I.faults inputs.new }
    ensures quiet { OnOk result (I.faults inputs.new ≡ I.faults inputs.old) }
    ensures failed { result ≡ Err ReadStop.Failed
        → Rose (I.faults inputs.old) (I.faults inputs.new) }
{
    let mut buffer = read_buffer(alloc)?;
    inputs.begin(name)?;
    read_rest(alloc, inputs, &mut buffer)
}

/// A buffer for one read.
fn read_buffer(alloc: Global) -> Result<Vec<u8>, NoMemory>
    ensures { IfOk result (λ buffer. 0 < vec_len buffer) }
{
    Ok(vec![in alloc; 0u8; BUFFER_BYTES]?)
}

/// The bytes of the begun file that are still to be read, by way of a buffer that is not empty.
fn read_rest<I: Inputs>(
    alloc: Global,
    inputs: &mut I,
    buffer: &mut Vec<u8>,
) -> Result<List<u8>, ReadStop>
    requires { 0 < vec_len buffer.old }
    ensures rest { ReadsRest result (I.contents inputs.old) (I.contents inputs.new) }
    ensures limit { IfOk result (λ bytes. length bytes ≤ MOST_BYTES) }
    ensures faults { I.faults inputs.old ≤ I.faults inputs.new }
    ensures quiet { OnOk result (I.faults inputs.new ≡ I.faults inputs.old) }
    ensures failed { result ≡ Err ReadStop.Failed
        → Rose (I.faults inputs.old) (I.faults inputs.new) }
{
    let mut bytes = List::new(alloc);
    loop {
        let count = inputs.read(buffer)?;
        if count == 0 {
            return Ok(bytes);
        }
        if count > MOST_BYTES - bytes.len() {
            return Err(ReadStop::TooLong);
        }
        bytes.extend_from_slice(&buffer[..count])?;
    }
}

/// Adds all bytes of a text to the end of a channel. After a refusal a front of them stands there,
/// which may be none and is not all. Takes no memory itself.
pub fn write_all<O: Outputs>(outputs: &mut O, channel: Channel, bytes: &[u8]) -> Result<(), Refusal>
    ensures writes { WritesAll channel bytes.now result (O.contents outputs.old) (O.contents outputs.new) }
    ensures faults { O.faults outputs.old ≤ O.faults outputs.new }
    ensures quiet { OnOk result (O.faults outputs.new ≡ O.faults outputs.old) }
    ensures failed { result ≡ Err Refusal.Failed
        → Rose (O.faults outputs.old) (O.faults outputs.new) }
{
    let mut done = 0;
    while done < bytes.len() {
        let count = outputs.write(channel, &bytes[done..])?;
        done += count;
    }
    Ok(())
}
