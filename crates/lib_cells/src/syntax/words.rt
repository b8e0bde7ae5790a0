//! The words of a text, parted by blanks (Liberty, `related_pin`).

ghost use Rattle.std.specs.Prelude.{◌≡◌, ◌++◌, [], ◌∷◌, IfOk, OnOk};
ghost use Rattle.library_model.specs.LibertyCells as liberty;

use crate::scanning::scan::parts;
use sdc_base::{List, NoMemory};
use std::alloc::Global;

/// Adds a word that ends, if it has begun. The one error is want of memory.
fn end_word(words: &mut List<List<u8>>, word: List<u8>) -> Result<(), NoMemory>
    ensures { OnOk result (words.new ≡ words.old ++ liberty.ended_word word) }
{
    if word.len() > 0 {
        words.push(word)?;
    }
    Ok(())
}

/// The words of a text. The one error is want of memory.
pub fn words_of(alloc: Global, text: &[u8]) -> Result<List<List<u8>>, NoMemory>
    ensures { IfOk result (λ words. words ≡ liberty.words_of text.now) }
{
    let mut words = List::new(alloc);
    let mut word = List::new(alloc);
    for byte in text {
        if parts(*byte) {
            end_word(&mut words, word)?;
            word = List::new(alloc);
        } else {
            word.push(*byte)?;
        }
    }
    end_word(&mut words, word)?;
    Ok(words)
}
