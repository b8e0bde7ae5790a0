//! Commands of a script, split into words (Tcl).

use sdc_base::{Duplicate, List, NoMemory, Text};
use std::alloc::Global;

/// A part of a word.
#[derive(Drop)]
pub enum Part {
    /// Bytes that stand for themselves.
    Text(Text),
    /// A variable, by its name.
    Variable(Text),
    /// A script whose value stands here.
    Script(Text),
}

impl Duplicate for Part {
    fn copy(&self, alloc: Global) -> Result<Part, NoMemory> {
        match self {
            Part::Text(text) => {
                let text = text.copy(alloc)?;
                Ok(Part::Text(text))
            }
            Part::Variable(name) => {
                let name = name.copy(alloc)?;
                Ok(Part::Variable(name))
            }
            Part::Script(script) => {
                let script = script.copy(alloc)?;
                Ok(Part::Script(script))
            }
        }
    }
}

/// A word: its parts, one after the other.
#[derive(Drop)]
pub struct Word {
    pub parts: List<Part>,
}

impl Duplicate for Word {
    fn copy(&self, alloc: Global) -> Result<Word, NoMemory> {
        let parts = self.parts.copy(alloc)?;
        Ok(Word { parts })
    }
}

/// A command: its words, the name first, and the line of its first word.
#[derive(Drop)]
pub struct Command {
    pub line: u32,
    pub words: List<Word>,
}

impl Duplicate for Command {
    fn copy(&self, alloc: Global) -> Result<Command, NoMemory> {
        let words = self.words.copy(alloc)?;
        Ok(Command {
            line: self.line,
            words,
        })
    }
}

/// A command, where its text ends in bytes, and the line there.
#[derive(Drop)]
pub struct Next {
    pub command: Command,
    pub end: usize,
    pub line: u32,
}

impl Duplicate for Next {
    fn copy(&self, alloc: Global) -> Result<Next, NoMemory> {
        let command = self.command.copy(alloc)?;
        Ok(Next {
            command,
            end: self.end,
            line: self.line,
        })
    }
}
