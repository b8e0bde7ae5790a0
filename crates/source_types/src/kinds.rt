//! The kinds of fault of a source, and a fault with its place.

use crate::fault_kinds::{DesignKind, VerilogKind};
use pin_types::ModeKind;
use sdc_base::{Duplicate, NoMemory, NumberError};
use std::alloc::Global;
use thiserror::Error;

/// Faults of a script (Tcl). The subset that is read is this project's own.
#[derive(Clone, Copy, Debug, PartialEq, Eq, Error)]
pub enum TclKind {
    /// A brace, quote or bracket without its end.
    #[error("a brace, quote or bracket has no end")]
    Unclosed,
    /// Text right after a closing brace or quote.
    #[error("text stands right behind a closing brace or quote")]
    ExtraAfterBrace,
    /// A word that cannot be read.
    #[error("a word cannot be read")]
    BadWord,
    /// A variable that is not set.
    #[error("a variable is not set")]
    UnknownVariable,
    /// An expression of a form, or of operands, that are not taken.
    #[error("an expression cannot be evaluated")]
    BadExpr,
    /// A command with more or fewer words than it takes.
    #[error("a command has a wrong number of words")]
    WrongArgs,
    /// A number that cannot be read or computed.
    #[error(transparent)]
    Number(NumberError),
    /// More than 100 levels of brackets, bodies and parentheses.
    #[error("more than 100 levels")]
    TooDeep,
    /// More than 30,000,000 commands in one file.
    #[error("more than 30,000,000 commands")]
    TooManyCommands,
}

impl Duplicate for TclKind {
    fn copy(&self, _alloc: Global) -> Result<TclKind, NoMemory> {
        Ok(*self)
    }
}

/// Faults of a constraint file (SDC 2.1). The profile that is read is this project's own.
#[derive(Clone, Copy, Debug, PartialEq, Eq, Error)]
pub enum SdcKind {
    /// A name that is no command.
    #[error("no command of this name")]
    UnknownCommand,
    /// An option that is unknown, missing or excluded, or a wrong number of arguments.
    #[error("an option or an argument is wrong")]
    BadOption,
    /// A value that cannot be read or is out of range, or an object of a wrong kind.
    #[error("a value or an object is wrong")]
    BadValue,
    /// A command, option or value that this tool leaves out.
    #[error("outside what is read here")]
    OutOfProfile,
    /// A second clock of a name.
    #[error("a second clock of this name")]
    ClockRedefined,
    /// A clock on a pin that has one already, without `-add`.
    #[error("a second clock on this pin")]
    ClockOverwritten,
    /// A delay of a merge that is too great to be printed and read again.
    #[error("a delay too great for a merge")]
    DelayRange,
    /// More clocks, exceptions or through lists than a run takes.
    #[error("more than are taken")]
    TooMany,
}

impl Duplicate for SdcKind {
    fn copy(&self, _alloc: Global) -> Result<SdcKind, NoMemory> {
        Ok(*self)
    }
}

/// Faults of a library (Liberty).
#[derive(Clone, Copy, Debug, PartialEq, Eq, Error)]
pub enum LibKind {
    /// The file is no text.
    #[error("not a text")]
    NotText,
    /// A text that is no library.
    #[error("not a library")]
    LibForm,
    /// A name that is no pin and no state variable of the cell.
    #[error("no pin of the cell")]
    UnknownPin,
    /// A text that is no function.
    #[error("not a function")]
    FunctionForm,
    /// A function of more inputs than are taken.
    #[error("a function of more than 10 inputs")]
    FunctionWide,
    /// A second cell of one name.
    #[error("a second cell of this name")]
    DoubleCell,
}

impl Duplicate for LibKind {
    fn copy(&self, _alloc: Global) -> Result<LibKind, NoMemory> {
        Ok(*self)
    }
}

/// Faults of a source.
#[derive(Clone, Copy, Debug, PartialEq, Eq, Error)]
pub enum Kind {
    #[error(transparent)]
    Tcl(TclKind),
    #[error(transparent)]
    Sdc(SdcKind),
    #[error(transparent)]
    Lib(LibKind),
    #[error(transparent)]
    Verilog(VerilogKind),
    #[error(transparent)]
    Design(DesignKind),
    #[error(transparent)]
    Mode(ModeKind),
    /// The file is no UTF-8 text.
    #[error("not a text")]
    NotText,
    /// The file has more bytes than are read.
    #[error("more than 268,435,456 bytes")]
    TooLong,
    /// The name is no checked pin and no output port.
    #[error("no endpoint of this name")]
    NoEndpoint,
}

impl Duplicate for Kind {
    fn copy(&self, _alloc: Global) -> Result<Kind, NoMemory> {
        Ok(*self)
    }
}

/// The first fault of a run: the place of the file's word (the command's word has place 0), the line in the
/// file, and the kind.
#[derive(Clone, Copy, Debug, PartialEq, Eq)]
pub struct Fault {
    pub file: u32,
    pub line: u32,
    pub kind: Kind,
}

impl Duplicate for Fault {
    fn copy(&self, _alloc: Global) -> Result<Fault, NoMemory> {
        Ok(*self)
    }
}
