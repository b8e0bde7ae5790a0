//! Laws of the tool, each as the contract of a function that does nothing.

ghost use Rattle.std.specs.Prelude.{ℕ, List};
ghost use Rattle.sdc_base.specs.declared.outside.NamedBytes.{NamedBytes};
ghost use Rattle.sdc_base.specs.Files.{Reading};
ghost use Rattle.sdc_model.specs.declared.command_lines.CommandLine.{CommandLine};
ghost use Rattle.timing_types.specs.declared.modes.Mode.{Mode};
ghost use Rattle.mode_model.specs.PrintedFile.{ModesArePrintable};
ghost use Rattle.sdc_cli.specs.Laws.{HasOneAnswer, HasOneOutcome, HaveOneMerge, HaveOneReport, SayPrintableModes};

/// The files of a command line say their modes or have one first fault, and never both. So what `run` answers
/// with a fault, or with an output, it answers exactly where that stands.
pub fn files_have_one_outcome()
    ensures { (line : CommandLine) (files : List NamedBytes) → HasOneOutcome line files }
{}

/// Modes have one report of `edges`.
pub fn modes_have_one_report()
    ensures { (files : List (List ℕ)) (modes : List Mode) → HaveOneReport files modes }
{}

/// Modes have one merge.
pub fn modes_have_one_merge()
    ensures { (modes : List Mode) → ModesArePrintable modes → HaveOneMerge modes }
{}

/// The modes that files say can be printed, so that they have one merge.
pub fn files_say_printable_modes()
    ensures { (line : CommandLine) (files : List NamedBytes) → SayPrintableModes line files }
{}

/// A command line has one output, or is too large by one length, and never both. So `Done` and `TooLarge` of
/// `run` each stand only where the other cannot, and `Done` with the one output.
pub fn command_lines_have_one_answer()
    ensures { (line : CommandLine) (reading : Reading) → HasOneAnswer line reading }
{}
