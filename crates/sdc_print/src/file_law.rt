//! What is true of every printed file: it says what was printed.

ghost use Rattle.timing_types.specs.declared.designs.Design.{Design};
ghost use Rattle.timing_types.specs.declared.modes.Mode.{Mode};
ghost use Rattle.sdc_print.specs.FileLaw.{FileReadsBack};

/// A file that was printed in nanoseconds says the mode that it was printed from, apart from the lines of its clocks,
/// where the mode has no more clocks than a file may have.
pub fn printed_files_read_back()
    ensures { (design : Design) (mode : Mode) → FileReadsBack design mode }
{}
