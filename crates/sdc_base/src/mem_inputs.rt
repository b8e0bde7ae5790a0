//! The calls of `MemInputs`.

ghost use Rattle.std.specs.Prelude.{◌≡◌, ◌≤◌, ℕ, length, IfOk, OnOk};
ghost use Rattle.sdc_base.specs.Counting.{Rose};
ghost use Rattle.sdc_base.specs.Files.{Begins, Reads};
ghost use Rattle.sdc_base.specs.MemoryInputs.{mem_files, MemBegins, MemReads};

use crate::counting::{contains, next_count};
use crate::files::{bytes_under, has_name, read_at};
use crate::memory_forms::MemInputs;
use crate::outside::{Inputs, Refusal};

impl Inputs for MemInputs {
    ghost contents = { mem_files };

    ghost faults = { λ it. it.faults };

    fn begin(&mut self, name: &str) -> Result<(), Refusal>
        ensures exact { MemBegins name.now result self.old self.new }
        ensures begins { Begins name.now result (mem_files self.old) (mem_files self.new) }
        ensures faults { self.old.faults ≤ self.new.faults }
        ensures quiet { OnOk result (self.new.faults ≡ self.old.faults) }
        ensures failed { result ≡ Err Refusal.Failed → Rose self.old.faults self.new.faults }
    {
        self.calls = next_count(self.calls);
        if contains(&self.fail, self.calls) || !has_name(&self.files, name) {
            self.faults = next_count(self.faults);
            return Err(Refusal::Failed);
        }
        self.name.set(name)?;
        self.place = 0;
        self.begun = true;
        Ok(())
    }

    fn read(&mut self, buffer: &mut [u8]) -> Result<usize, Refusal>
        ensures exact { MemReads buffer.old buffer.new result self.old self.new }
        ensures within { IfOk result (λ count. count ≤ length buffer.old) }
        ensures reads { Reads (length buffer.old) buffer.new result
            (mem_files self.old) (mem_files self.new) }
        ensures faults { self.old.faults ≤ self.new.faults }
        ensures quiet { OnOk result (self.new.faults ≡ self.old.faults) }
        ensures failed { result ≡ Err Refusal.Failed → Rose self.old.faults self.new.faults }
    {
        self.calls = next_count(self.calls);
        if contains(&self.fail, self.calls) || !self.begun {
            self.faults = next_count(self.faults);
            return Err(Refusal::Failed);
        }
        let bytes = bytes_under(&self.files, self.name.as_str());
        let count = read_at(bytes, self.place, self.most, buffer);
        self.place += count;
        Ok(count)
    }
}
