//! The four forms in memory of the outside: two that fail where they are told to, and two that
//! never fail.

ghost use Rattle.std.specs.Prelude.{◌<◌};

use crate::lists::List;
use crate::outside::NamedBytes;
use crate::texts::Text;

/// Files in memory, read by calls of which some are to fail. For tests of what reads files.
#[derive(Drop)]
pub struct MemInputs {
    /// The files; of several with one name the first counts.
    pub files: List<NamedBytes>,
    /// The numbers of the calls that fail, counted from 1 over both methods.
    pub fail: List<u64>,
    /// The greatest number of bytes of one read.
    pub most: usize,
    /// The number of calls so far.
    pub calls: u64,
    /// The number of faults so far.
    pub faults: u64,
    /// The name of the begun file.
    pub name: Text,
    /// The number of its bytes that were read.
    pub place: usize,
    /// Whether a file was begun.
    pub begun: bool,
    ghost some: { 0 < most },
}

/// Files in memory, read by calls that never fail but for want of memory. A missing name is an
/// empty file.
#[derive(Drop)]
pub struct SureInputs {
    /// The files; of several with one name the first counts.
    pub files: List<NamedBytes>,
    /// The name of the begun file.
    pub name: Text,
    /// The number of its bytes that were read.
    pub place: usize,
}

/// Channels in memory, written by calls of which some are to fail. For tests of what writes.
#[derive(Drop)]
pub struct MemOutputs {
    /// What was written to `Report`.
    pub report: List<u8>,
    /// What was written to `Faults`.
    pub faults_text: List<u8>,
    /// What was written to `Merged`.
    pub merged: List<u8>,
    /// The name of the file after `Merged`.
    pub name: Text,
    /// The numbers of the calls that fail, counted from 1 over both methods.
    pub fail: List<u64>,
    /// The greatest number of bytes of one write.
    pub most: usize,
    /// The number of calls so far.
    pub calls: u64,
    /// The number of faults so far.
    pub faults: u64,
    ghost some: { 0 < most },
}

/// Channels in memory, written by calls that take whole pieces and never fail but for want of
/// memory.
#[derive(Drop)]
pub struct SureOutputs {
    /// What was written to `Report`.
    pub report: List<u8>,
    /// What was written to `Faults`.
    pub faults_text: List<u8>,
    /// What was written to `Merged`.
    pub merged: List<u8>,
    /// The name of the file after `Merged`.
    pub name: Text,
}
