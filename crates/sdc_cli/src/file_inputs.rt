//! Files of the operating system, as inputs.

ghost use Rattle.std.specs.Prelude.{◌≡◌, ◌≤◌, None, IfOk, OnOk, OnErr, IsSome, length};
ghost use Rattle.sdc_base.specs.Counting.{Rose};
ghost use Rattle.sdc_base.specs.Files.{Begins, Reads};
ghost use Rattle.sdc_cli.specs.Streams.{Holds, ReadsHeld};

use crate::fault_count::counted;
use sdc_base::{Inputs, Refusal};
use std::io::{ErrorKind, Read};
use std::rt::Files;
use std::{fs, io};

/// The files that a runtime reaches, read one at a time. It tells no bytes, since no contract can say what
/// a disk gives, and counts each error.
#[derive(Drop)]
pub struct FileInputs<'a, R: Files> {
    rt: &'a R,
    file: Option<R::File>,
    faults: u64,
}

impl<'a, R: Files> FileInputs<'a, R> {
    /// No file begun, and no fault so far.
    pub fn new(rt: &'a R) -> FileInputs<'a, R>
        ensures { result.faults ≡ 0 }
    {
        FileInputs {
            rt,
            file: None,
            faults: 0,
        }
    }

    /// Takes the file that was opened as the one that is read next. One that could not be opened is a
    /// fault, and the file that was begun stays.
    fn take(&mut self, opened: io::Result<R::File>) -> Result<(), Refusal>
        ensures holds { Holds opened result self.old.file self.new.file }
        ensures faults { self.old.faults ≤ self.new.faults }
        ensures quiet { OnOk result (self.new.faults ≡ self.old.faults) }
        ensures failed { result ≡ Err Refusal.Failed → Rose self.old.faults self.new.faults }
    {
        let file = counted(opened, &mut self.faults)?;
        self.file = Some(file);
        Ok(())
    }

    /// What one call of the system gives of the file. With no file begun it is an error.
    fn give(&mut self, buffer: &mut [u8]) -> io::Result<usize>
        ensures gives { ReadsHeld R.File.remaining result buffer.new self.old.file self.new.file }
        ensures within { IfOk result (λ count. count ≤ length buffer.old) }
        ensures faults { self.new.faults ≡ self.old.faults }
    {
        match &mut self.file {
            Some(file) => file.read(buffer),
            None => Err(ErrorKind::NotFound.into()),
        }
    }
}

impl<'a, R: Files> Inputs for FileInputs<'a, R> {
    ghost contents = { λ _. None };

    ghost faults = { λ inputs. inputs.faults };

    /// Opens a file. One that cannot be opened is a fault, and the file that was begun stays.
    fn begin(&mut self, name: &str) -> Result<(), Refusal>
        ensures begun { OnOk result (IsSome self.new.file) }
        ensures stays { OnErr result (self.new.file ≡ self.old.file) }
        ensures begins { Begins name.now result None None }
        ensures faults { self.old.faults ≤ self.new.faults }
        ensures quiet { OnOk result (self.new.faults ≡ self.old.faults) }
        ensures failed { result ≡ Err Refusal.Failed → Rose self.old.faults self.new.faults }
    {
        let opened = fs::open(self.rt, name);
        self.take(opened)
    }

    /// Reads as much as one call of the system gives. With no file begun it is a fault.
    fn read(&mut self, buffer: &mut [u8]) -> Result<usize, Refusal>
        ensures gives { ReadsHeld R.File.remaining result buffer.new self.old.file self.new.file }
        ensures within { IfOk result (λ count. count ≤ length buffer.old) }
        ensures reads { Reads (length buffer.old) buffer.new result None None }
        ensures faults { self.old.faults ≤ self.new.faults }
        ensures quiet { OnOk result (self.new.faults ≡ self.old.faults) }
        ensures failed { result ≡ Err Refusal.Failed → Rose self.old.faults self.new.faults }
    {
        let read = self.give(buffer);
        counted(read, &mut self.faults)
    }
}

#[cfg(test)]
mod tests {
    use super::*;
    use std::test::Fail;

    #[test]
    fn reads_a_file_and_counts_errors(rt: HostRuntime) -> Result<(), Fail> {
        fs::write(&rt, "inputs.sdc", "create_clock\n")?;
        let mut inputs = FileInputs::new(&rt);
        let mut buffer = [b'-'; 8];
        let too_early = inputs.read(&mut buffer);
        let begun = [inputs.begin("inputs.sdc"), inputs.begin("no such file")];
        let read = [
            inputs.read(&mut buffer),
            inputs.read(&mut buffer),
            inputs.read(&mut buffer),
        ];
        fs::remove_file(&rt, "inputs.sdc")?;
        assert_eq!(rt; too_early, Err(Refusal::Failed));
        assert_eq!(rt; begun, [Ok(()), Err(Refusal::Failed)]);
        assert_eq!(rt; read, [Ok(8), Ok(5), Ok(0)], "the begun file stays");
        assert_eq!(rt; buffer, *b"lock\ne_c");
        assert_eq!(rt; inputs.faults, 2);
        Ok(())
    }
}
