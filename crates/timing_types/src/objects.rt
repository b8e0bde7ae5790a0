//! Objects that a command names, commands that are kept as they are, and notes.

use pin_types::Pin;
use sdc_base::{Duplicate, List, NoMemory, Text};
use std::alloc::Global;

/// An object of a design or a mode, by its place.
#[derive(Clone, Copy)]
pub enum Object {
    Clock(u32),
    Port(Pin),
    Pin(Pin),
    Cell(u32),
    Net(u32),
}

impl Duplicate for Object {
    fn copy(&self, _alloc: Global) -> Result<Object, NoMemory> {
        Ok(*self)
    }
}

/// A word of a command once it is evaluated: a text, or a list of objects.
#[derive(Drop)]
pub enum Value {
    Text(Text),
    Objects(List<Object>),
}

impl Duplicate for Value {
    fn copy(&self, alloc: Global) -> Result<Value, NoMemory> {
        match self {
            Value::Text(text) => {
                let text = text.copy(alloc)?;
                Ok(Value::Text(text))
            }
            Value::Objects(objects) => {
                let objects = objects.copy(alloc)?;
                Ok(Value::Objects(objects))
            }
        }
    }
}

/// An environment command that is kept as it is, its name first.
#[derive(Drop)]
pub struct Kept {
    pub line: u32,
    pub words: List<Value>,
}

impl Duplicate for Kept {
    fn copy(&self, alloc: Global) -> Result<Kept, NoMemory> {
        let words = self.words.copy(alloc)?;
        Ok(Kept {
            line: self.line,
            words,
        })
    }
}

/// Why a command had less effect than it asked for.
#[derive(Clone, Copy)]
pub enum NoteKind {
    NoEffect,
    NotAnEnd,
    NoClock,
}

impl Duplicate for NoteKind {
    fn copy(&self, _alloc: Global) -> Result<NoteKind, NoMemory> {
        Ok(*self)
    }
}

/// A note on the command of a line.
#[derive(Clone, Copy)]
pub struct Note {
    pub line: u32,
    pub kind: NoteKind,
}

impl Duplicate for Note {
    fn copy(&self, _alloc: Global) -> Result<Note, NoMemory> {
        Ok(*self)
    }
}
