//! The parts of a word, gathered from its pieces.

ghost use Rattle.std.specs.Prelude.{◌≡◌, ◌≤◌, length, IfOk, OnOk};
ghost use Rattle.std.specs.Str.{IsCharBoundary};
ghost use Rattle.tcl_model.specs.Pieces as grammar;
ghost use Rattle.tcl_model.specs.WordParts.{all_parts, with_piece, with_text, word_of};
ghost use Rattle.tcl_words.specs.GatheredParts.{gathered_of, no_parts};
ghost use Rattle.tcl_words.specs.Steps.{piece_of};

use crate::pieces::{Kind, Piece};
use sdc_base::{List, NoMemory, Text};
use source_types::{Part, Word};
use std::alloc::Global;
use std::mem;

/// The parts that are whole, and the text after them so far.
#[derive(Drop)]
pub struct Gathered {
    pub parts: List<Part>,
    pub pending: Text,
}

impl Gathered {
    pub fn new(alloc: Global) -> Gathered
        ensures { gathered_of result ≡ no_parts }
    {
        Gathered {
            parts: List::new(alloc),
            pending: Text::new(alloc),
        }
    }

    /// Adds a piece of a text. The one error is want of memory.
    pub fn add(&mut self, alloc: Global, text: &str, piece: Piece) -> Result<(), NoMemory>
        requires order { piece.from ≤ piece.to }
        requires inside { piece.to ≤ length text.now }
        requires from_boundary { IsCharBoundary text.now piece.from }
        requires to_boundary { IsCharBoundary text.now piece.to }
        ensures { OnOk result (gathered_of self.new ≡ with_piece (gathered_of self.old) (piece_of text.now piece)) }
    {
        let bytes = &text[piece.from..piece.to];
        match piece.kind {
            Kind::Text => self.add_text(bytes)?,
            Kind::Newline => self.add_text("\n")?,
            Kind::Tab => self.add_text("\t")?,
            Kind::Blank => self.add_text(" ")?,
            Kind::Variable => {
                let name = Text::from_str(alloc, bytes)?;
                self.add_part(alloc, Part::Variable(name))?;
            }
            Kind::Script => {
                let script = Text::from_str(alloc, bytes)?;
                self.add_part(alloc, Part::Script(script))?;
            }
        }
        Ok(())
    }

    /// Adds some text. The one error is want of memory.
    fn add_text(&mut self, more: &str) -> Result<(), NoMemory>
        ensures { OnOk result (gathered_of self.new ≡ with_piece (gathered_of self.old) (grammar.text more.now)) }
    {
        self.pending.push_str(more)?;
        Ok(())
    }

    /// Adds a part that is no text. The one error is want of memory.
    fn add_part(&mut self, alloc: Global, part: Part) -> Result<(), NoMemory>
        ensures { OnOk result (gathered_of self.new ≡ with_piece (gathered_of self.old) (grammar.other part)) }
    {
        let pending = mem::replace(&mut self.pending, Text::new(alloc));
        push_text(&mut self.parts, pending)?;
        self.parts.push(part)?;
        Ok(())
    }

    /// The word of the parts. The one error is want of memory.
    pub fn into_word(self) -> Result<Word, NoMemory>
        ensures { IfOk result (λ word. word ≡ word_of (gathered_of self)) }
    {
        let Gathered { mut parts, pending } = self;
        push_last(&mut parts, pending)?;
        Ok(Word { parts })
    }
}

/// Adds a text to parts, where it is not empty. The one error is want of memory.
fn push_text(parts: &mut List<Part>, text: Text) -> Result<(), NoMemory>
    ensures { OnOk result (parts.new ≡ with_text parts.old text) }
{
    if text.len() == 0 {
        return Ok(());
    }
    parts.push(Part::Text(text))?;
    Ok(())
}

/// Adds the last text to parts, where it is not empty or the only one. The one error is want of memory.
fn push_last(parts: &mut List<Part>, text: Text) -> Result<(), NoMemory>
    ensures { OnOk result (parts.new ≡ all_parts parts.old text) }
{
    if parts.len() == 0 {
        parts.push(Part::Text(text))?;
        return Ok(());
    }
    push_text(parts, text)?;
    Ok(())
}
