//! The bytes of a netlist as tokens, or the fault of bytes that are none.

ghost use Rattle.verilog_net.specs.Recognition.{Recognises};

use crate::lexing::tokens::{Token, tokens_of};
use crate::syntax::recognition::broken_line;
use sdc_base::{At, Stop};
use source_types::VerilogKind;
use std::alloc::Global;
use text_lines::no_text_line;

/// The tokens of a file's bytes, where they are a netlist of the grammar (IEEE 1364-2005, in the part that is read
/// here).
///
/// Refused as `NotText` with the line of the first byte that is no UTF-8, and as `VerilogForm` with the line of the
/// first token that no netlist has after those before it, or of the last byte where the text ends too early. These
/// stand before all other faults of a netlist.
#[tactic(auto, using(crate::proofs::ErrorFacts::no_text))]
pub fn netlist_tokens(alloc: Global, bytes: &[u8]) -> Result<Vec<Token<'_>>, Stop<At<VerilogKind>>>
    ensures { Recognises result bytes.now }
{
    match str::from_utf8(bytes) {
        Ok(text) => text_tokens(alloc, text),
        Err(error) => {
            let line = no_text_line(bytes, error.valid_up_to());
            let kind = VerilogKind::NotText;
            Err(Stop::Refused(At { line, kind }))
        }
    }
}

/// The tokens of a text, refused as `netlist_tokens` refuses bytes that are one.
#[tactic(auto, using(crate::proofs::ErrorFacts::form_refused, crate::proofs::ErrorFacts::whole))]
fn text_tokens(alloc: Global, text: &str) -> Result<Vec<Token<'_>>, Stop<At<VerilogKind>>>
    ensures { Recognises result text.now }
{
    let tokens = tokens_of(alloc, text)?;
    if let Some(line) = broken_line(alloc, text, tokens.as_slice())? {
        let kind = VerilogKind::VerilogForm;
        return Err(Stop::Refused(At { line, kind }));
    }
    Ok(tokens)
}
