//! The calls of `MemOutputs`.

ghost use Rattle.std.specs.Prelude.{◌≡◌, ◌<◌, ◌≤◌, ℕ, length, IfOk, OnOk};
ghost use Rattle.sdc_base.specs.Counting.{Rose};
ghost use Rattle.sdc_base.specs.Channels.{Creates, Writes};
ghost use Rattle.sdc_base.specs.MemoryOutputs.{mem_channels, MemCreates, MemWrites};

use crate::counting::{contains, next_count};
use crate::memory_forms::MemOutputs;
use crate::outside::{Channel, Outputs, Refusal};

impl Outputs for MemOutputs {
    ghost contents = { mem_channels };

    ghost faults = { λ it. it.faults };

    fn create(&mut self, name: &str) -> Result<(), Refusal>
        ensures exact { MemCreates name.now result self.old self.new }
        ensures creates { Creates name.now result (mem_channels self.old) (mem_channels self.new) }
        ensures faults { self.old.faults ≤ self.new.faults }
        ensures quiet { OnOk result (self.new.faults ≡ self.old.faults) }
        ensures failed { result ≡ Err Refusal.Failed → Rose self.old.faults self.new.faults }
    {
        self.calls = next_count(self.calls);
        if contains(&self.fail, self.calls) {
            self.faults = next_count(self.faults);
            return Err(Refusal::Failed);
        }
        self.name.set(name)?;
        self.merged.clear();
        Ok(())
    }

    fn write(&mut self, channel: Channel, piece: &[u8]) -> Result<usize, Refusal>
        ensures exact { MemWrites channel piece.now result self.old self.new }
        ensures within { IfOk result (λ count. count ≤ length piece.now) }
        ensures some { IfOk result (λ count. 0 < length piece.now → 0 < count) }
        ensures writes { Writes channel piece.now result
            (mem_channels self.old) (mem_channels self.new) }
        ensures faults { self.old.faults ≤ self.new.faults }
        ensures quiet { OnOk result (self.new.faults ≡ self.old.faults) }
        ensures failed { result ≡ Err Refusal.Failed → Rose self.old.faults self.new.faults }
    {
        self.calls = next_count(self.calls);
        if contains(&self.fail, self.calls) {
            self.faults = next_count(self.faults);
            return Err(Refusal::Failed);
        }
        let count = self.most.min(piece.len());
        let front = &piece[..count];
        match channel {
            Channel::Report => self.report.extend_from_slice(front)?,
            Channel::Faults => self.faults_text.extend_from_slice(front)?,
            Channel::Merged => self.merged.extend_from_slice(front)?,
        }
        Ok(count)
    }
}
