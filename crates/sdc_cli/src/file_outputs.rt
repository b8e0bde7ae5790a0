//! Files and streams of the operating system, as outputs.

ghost use Rattle.std.specs.Prelude.{◌≡◌, ◌≤◌, ◌<◌, None, IfOk, OnOk, OnErr, IsSome, length};
ghost use Rattle.std.specs.Io.KnownBytes.{WriteAppends};
ghost use Rattle.sdc_base.specs.Counting.{Rose};
ghost use Rattle.sdc_base.specs.Channels.{Creates, Writes};
ghost use Rattle.sdc_cli.specs.Streams.{Holds, WritesFile, WritesOwn};

use crate::fault_count::counted;
use sdc_base::{Channel, Outputs, Refusal};
use std::io::{ErrorKind, Write};
use std::rt::Files;
use std::{fs, io};

/// Two streams, one for what a command found and one for its refusal, and the merged file on a runtime's
/// disk. It tells no bytes, since no contract can say what a stream takes, and counts each error.
#[derive(Drop)]
pub struct FileOutputs<'a, R: Files, Report: Write, Faults: Write> {
    rt: &'a R,
    report: Report,
    refusals: Faults,
    merged: Option<R::File>,
    faults: u64,
}

/// What a stream takes of a piece. Taking nothing of a piece that is not empty is an error.
fn offer<W: Write>(stream: &mut W, piece: &[u8]) -> io::Result<usize>
    ensures takes { WriteAppends (W.contents stream.old) (W.contents stream.new) result piece.now }
    ensures within { IfOk result (λ count. count ≤ length piece.now) }
    ensures some { IfOk result (λ count. 0 < length piece.now → 0 < count) }
{
    let taken = stream.write(piece)?;
    if taken == 0 && !piece.is_empty() {
        return Err(ErrorKind::WriteZero.into());
    }
    Ok(taken)
}

impl<'a, R: Files, Report: Write, Faults: Write> FileOutputs<'a, R, Report, Faults> {
    /// Over these streams for `Channel::Report` and `Channel::Faults`; no merged file, and no fault so far.
    pub fn new(rt: &'a R, report: Report, refusals: Faults) -> FileOutputs<'a, R, Report, Faults>
        ensures report { result.report ≡ report }
        ensures refusals { result.refusals ≡ refusals }
        ensures faults { result.faults ≡ 0 }
    {
        FileOutputs {
            rt,
            report,
            refusals,
            merged: None,
            faults: 0,
        }
    }

    /// What the stream or file of a channel takes of a piece; the merged file before it was created is an error.
    fn put(&mut self, channel: Channel, piece: &[u8]) -> io::Result<usize>
        ensures report { WritesOwn Report.contents Channel.Report channel result piece.now
            self.old.report self.new.report }
        ensures refusals { WritesOwn Faults.contents Channel.Faults channel result piece.now
            self.old.refusals self.new.refusals }
        ensures merged { WritesFile R.File.contents channel result piece.now
            self.old.merged self.new.merged }
        ensures within { IfOk result (λ count. count ≤ length piece.now) }
        ensures some { IfOk result (λ count. 0 < length piece.now → 0 < count) }
        ensures faults { self.new.faults ≡ self.old.faults }
    {
        match channel {
            Channel::Report => offer(&mut self.report, piece),
            Channel::Faults => offer(&mut self.refusals, piece),
            Channel::Merged => match &mut self.merged {
                Some(file) => offer(file, piece),
                None => Err(ErrorKind::NotFound.into()),
            },
        }
    }

    /// Takes the file that was made as the merged file. One that could not be made is a fault, and the
    /// merged file stays.
    fn take(&mut self, made: io::Result<R::File>) -> Result<(), Refusal>
        ensures holds { Holds made result self.old.merged self.new.merged }
        ensures report { self.new.report ≡ self.old.report }
        ensures refusals { self.new.refusals ≡ self.old.refusals }
        ensures faults { self.old.faults ≤ self.new.faults }
        ensures quiet { OnOk result (self.new.faults ≡ self.old.faults) }
        ensures failed { result ≡ Err Refusal.Failed → Rose self.old.faults self.new.faults }
    {
        let file = counted(made, &mut self.faults)?;
        self.merged = Some(file);
        Ok(())
    }
}

impl<'a, R: Files, Report: Write, Faults: Write> Outputs for FileOutputs<'a, R, Report, Faults> {
    ghost contents = { λ _. None };

    ghost faults = { λ outputs. outputs.faults };

    /// Makes a file, or empties the one of this name. One that cannot be made is a fault.
    fn create(&mut self, name: &str) -> Result<(), Refusal>
        ensures made { OnOk result (IsSome self.new.merged) }
        ensures stays { OnErr result (self.new.merged ≡ self.old.merged) }
        ensures report { self.new.report ≡ self.old.report }
        ensures refusals { self.new.refusals ≡ self.old.refusals }
        ensures creates { Creates name.now result None None }
        ensures faults { self.old.faults ≤ self.new.faults }
        ensures quiet { OnOk result (self.new.faults ≡ self.old.faults) }
        ensures failed { result ≡ Err Refusal.Failed → Rose self.old.faults self.new.faults }
    {
        let made = fs::create(self.rt, name);
        self.take(made)
    }

    /// Writes as much as one call of the system takes.
    fn write(&mut self, channel: Channel, piece: &[u8]) -> Result<usize, Refusal>
        ensures report { WritesOwn Report.contents Channel.Report channel result piece.now
            self.old.report self.new.report }
        ensures refusals { WritesOwn Faults.contents Channel.Faults channel result piece.now
            self.old.refusals self.new.refusals }
        ensures merged { WritesFile R.File.contents channel result piece.now
            self.old.merged self.new.merged }
        ensures within { IfOk result (λ count. count ≤ length piece.now) }
        ensures some { IfOk result (λ count. 0 < length piece.now → 0 < count) }
        ensures writes { Writes channel piece.now result None None }
        ensures faults { self.old.faults ≤ self.new.faults }
        ensures quiet { OnOk result (self.new.faults ≡ self.old.faults) }
        ensures failed { result ≡ Err Refusal.Failed → Rose self.old.faults self.new.faults }
    {
        let taken = self.put(channel, piece);
        counted(taken, &mut self.faults)
    }
}

#[cfg(test)]
mod tests {
    use super::*;
    use std::test::Fail;

    #[test]
    fn writes_a_file_and_streams_and_counts_errors(rt: HostRuntime) -> Result<(), Fail> {
        let report = fs::create(&rt, "outputs.report")?;
        let mut room = [0; 3];
        let mut outputs = FileOutputs::new(&rt, report, room.as_mut_slice());
        let too_early = outputs.write(Channel::Merged, b"x");
        let created = [
            outputs.create("no such folder/merged.sdc"),
            outputs.create("outputs.sdc"),
        ];
        let written = [
            outputs.write(Channel::Report, b"A rise"),
            outputs.write(Channel::Merged, b"create_clock"),
            outputs.write(Channel::Faults, b"abcd"),
            outputs.write(Channel::Faults, b""),
            outputs.write(Channel::Faults, b"d"),
        ];
        let failed = Err(Refusal::Failed);
        assert_eq!(rt; too_early, failed);
        assert_eq!(rt; created, [Err(Refusal::Failed), Ok(())]);
        assert_eq!(rt; written, [Ok(6), Ok(12), Ok(3), Ok(0), failed]);
        assert_eq!(rt; outputs.faults, 3);
        drop(outputs);
        let report = fs::read_to_string(&rt, "outputs.report")?;
        let merged = fs::read_to_string(&rt, "outputs.sdc")?;
        fs::remove_file(&rt, "outputs.report")?;
        fs::remove_file(&rt, "outputs.sdc")?;
        assert_eq!(rt;
            (report.as_str(), merged.as_str()),
            ("A rise", "create_clock")
        );
        assert_eq!(rt; room, *b"abc", "what fits of a piece");
        Ok(())
    }
}
