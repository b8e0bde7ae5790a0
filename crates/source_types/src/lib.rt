//! The plain types of what is read: words and expressions of a script, libraries, netlists, and the faults of each.
//!
//! Data with public fields and `Duplicate`, whose answer equals the original, and no behaviour.
#![tactic(auto)]

mod built_ins;
mod commands;
mod expressions;
mod fault_kinds;
mod function_texts;
mod kinds;
mod liberty_tokens;
mod libraries;
mod map_entries;
mod netlists;
mod verilog_tokens;

pub use built_ins::{Branch, Branches, CommandName};
pub use commands::{Command, Next, Part, Word};
pub use expressions::{
    BinaryOperator, Expression, ExpressionStep, ExpressionToken, Scalar, UnaryOperator,
};
pub use fault_kinds::{DesignKind, VerilogKind};
pub use function_texts::{Operand, Pending, Sign};
pub use kinds::{Fault, Kind, LibKind, SdcKind, TclKind};
pub use liberty_tokens::{Gap, LibertySymbol, LibertyToken};
pub use libraries::Library;
pub use map_entries::MapEntry;
pub use netlists::{Assign, Bit, Instance, Link, Links, Module, Port, Range, Wire};
pub use verilog_tokens::{VerilogSymbol, VerilogToken};
