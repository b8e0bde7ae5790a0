//! What is true of every printed line, whatever it says.

ghost use Rattle.std.specs.Prelude.{List};
ghost use Rattle.mode_model.specs.PrintedLine.{PrintedWord};
ghost use Rattle.mode_model.specs.PrintedCommands.{LineIsFirst, LinesAreCommands};

/// A line of words that the grammar has, each as it is spelled, is one command of these words, and lines of such
/// words are the commands of their text.
pub fn lines_are_commands()
    ensures first { (words : List PrintedWord) → LineIsFirst words }
    ensures all { (lines : List (List PrintedWord)) → LinesAreCommands lines }
{}
