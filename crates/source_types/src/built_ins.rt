//! The names of the commands that are built in, and what the words of `if` say (Tcl).

use sdc_base::{List, Text};

/// A command by its name.
#[derive(Clone, Copy)]
pub enum CommandName {
    Set,
    List,
    Concat,
    Lindex,
    Llength,
    Expr,
    Foreach,
    If,
    /// Every other name: a command of the host.
    Other,
}

/// A condition, and the body that is run where it holds.
#[derive(Drop)]
pub struct Branch {
    pub condition: Text,
    pub body: Text,
}

/// The branches of an `if` in order, and the body that is run where none of them holds.
#[derive(Drop)]
pub struct Branches {
    pub branches: List<Branch>,
    pub otherwise: Option<Text>,
}
