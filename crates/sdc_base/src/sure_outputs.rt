//! The calls of `SureOutputs`.

ghost use Rattle.std.specs.Prelude.{◌≡◌, ◌<◌, ◌≤◌, ℕ, length, IfOk, OnOk};
ghost use Rattle.sdc_base.specs.Counting.{Rose, no_faults};
ghost use Rattle.sdc_base.specs.Channels.{Creates, Writes};
ghost use Rattle.sdc_base.specs.MemoryOutputs.{sure_channels, SureCreates, SureWrites};

use crate::memory_forms::SureOutputs;
use crate::outside::{Channel, Outputs, Refusal};

impl Outputs for SureOutputs {
    ghost contents = { sure_channels };

    ghost faults = { no_faults };

    fn create(&mut self, name: &str) -> Result<(), Refusal>
        ensures exact { SureCreates name.now result self.old self.new }
        ensures creates { Creates name.now result
            (sure_channels self.old) (sure_channels self.new) }
        ensures faults { no_faults self.old ≤ no_faults self.new }
        ensures quiet { OnOk result (no_faults self.new ≡ no_faults self.old) }
        ensures failed { result ≡ Err Refusal.Failed
            → Rose (no_faults self.old) (no_faults self.new) }
    {
        self.name.set(name)?;
        self.merged.clear();
        Ok(())
    }

    fn write(&mut self, channel: Channel, piece: &[u8]) -> Result<usize, Refusal>
        ensures exact { SureWrites channel piece.now result self.old self.new }
        ensures within { IfOk result (λ count. count ≤ length piece.now) }
        ensures some { IfOk result (λ count. 0 < length piece.now → 0 < count) }
        ensures writes { Writes channel piece.now result
            (sure_channels self.old) (sure_channels self.new) }
        ensures faults { no_faults self.old ≤ no_faults self.new }
        ensures quiet { OnOk result (no_faults self.new ≡ no_faults self.old) }
        ensures failed { result ≡ Err Refusal.Failed
            → Rose (no_faults self.old) (no_faults self.new) }
    {
        match channel {
            Channel::Report => self.report.extend_from_slice(piece)?,
            Channel::Faults => self.faults_text.extend_from_slice(piece)?,
            Channel::Merged => self.merged.extend_from_slice(piece)?,
        }
        Ok(piece.len())
    }
}
