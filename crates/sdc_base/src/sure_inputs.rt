//! The calls of `SureInputs`.

ghost use Rattle.std.specs.Prelude.{◌≡◌, ◌≤◌, ℕ, length, IfOk, OnOk};
ghost use Rattle.sdc_base.specs.Counting.{Rose, no_faults};
ghost use Rattle.sdc_base.specs.Files.{Begins, Reads};
ghost use Rattle.sdc_base.specs.MemoryInputs.{sure_files, SureBegins, SureReads};

use crate::files::{bytes_under, read_at};
use crate::memory_forms::SureInputs;
use crate::outside::{Inputs, Refusal};

impl Inputs for SureInputs {
    ghost contents = { sure_files };

    ghost faults = { no_faults };

    fn begin(&mut self, name: &str) -> Result<(), Refusal>
        ensures exact { SureBegins name.now result self.old self.new }
        ensures begins { Begins name.now result (sure_files self.old) (sure_files self.new) }
        ensures faults { no_faults self.old ≤ no_faults self.new }
        ensures quiet { OnOk result (no_faults self.new ≡ no_faults self.old) }
        ensures failed { result ≡ Err Refusal.Failed
            → Rose (no_faults self.old) (no_faults self.new) }
    {
        self.name.set(name)?;
        self.place = 0;
        Ok(())
    }

    fn read(&mut self, buffer: &mut [u8]) -> Result<usize, Refusal>
        ensures exact { SureReads buffer.old buffer.new result self.old self.new }
        ensures within { IfOk result (λ count. count ≤ length buffer.old) }
        ensures reads { Reads (length buffer.old) buffer.new result
            (sure_files self.old) (sure_files self.new) }
        ensures faults { no_faults self.old ≤ no_faults self.new }
        ensures quiet { OnOk result (no_faults self.new ≡ no_faults self.old) }
        ensures failed { result ≡ Err Refusal.Failed
            → Rose (no_faults self.old) (no_faults self.new) }
    {
        let bytes = bytes_under(&self.files, self.name.as_str());
        let count = read_at(bytes, self.place, buffer.len(), buffer);
        self.place += count;
        Ok(count)
    }
}
