//! The bytes of a library, read.

ghost use Rattle.std.specs.Prelude.{◌≡◌, ◌||◌, Ok};
ghost use Rattle.std.specs.Str.{IsUtf8};
ghost use Rattle.sdc_base.specs.Gives.{Gives, Meets};
ghost use Rattle.library_model.specs.LibertyText.{ReadsLibrary, read};
ghost use Rattle.library_model.specs.LibertyTokens.{IsLexed, is_in_comment};
ghost use Rattle.lib_cells.specs.Reading.{ReadsText};
ghost use Rattle.lib_cells.specs.Seen.{tokens_seen, within_seen};

use crate::library::libraries::library_if;
use crate::scanning::characters::{Characters, read_characters};
use crate::scanning::lexing::{Lexed, lex};
use crate::scanning::tokens::Token;
use crate::syntax::recognition::broken_line;
use crate::syntax::statements::statements;
use sdc_base::{At, Stop};
use source_types::{LibKind, Library};
use std::alloc::Global;
use text_lines::no_text_line;

/// The library of a file's bytes (Liberty).
///
/// Refused as `NotText` with the line of the first byte that is no UTF-8; as `LibForm` with the line of the first token
/// that no library's text has after those before it, or the last line where the text ends too early; else with the
/// first fault in the order of the text, on its line. What is read and what is refused is this project's own rule.
pub fn read_lib(alloc: Global, bytes: &[u8]) -> Result<Library, Stop<At<LibKind>>>
    ensures { Meets result (ReadsLibrary bytes.now) }
{
    match str::from_utf8(bytes) {
        Ok(_) => read_text(alloc, bytes),
        Err(error) => {
            let line = no_text_line(bytes, error.valid_up_to());
            let kind = LibKind::NotText;
            Err(Stop::Refused(At { line, kind }))
        }
    }
}

/// The library of a text, refused as `read_lib` refuses a file that is one.
fn read_text(alloc: Global, text: &[u8]) -> Result<Library, Stop<At<LibKind>>>
    requires { IsUtf8 text.now }
    ensures { Meets result (ReadsText text.now) }
{
    let characters = read_characters(alloc, text)?;
    let shown = as_text(characters.bytes.as_slice());
    let lexed = lex(alloc, shown, characters.lines.as_slice())?;
    let unfinished = is_unfinished(&lexed, &characters);
    read_tokens(alloc, text, lexed.tokens.as_slice(), unfinished)
}

/// Bytes that are a text, as one.
fn as_text(bytes: &[u8]) -> &str
    requires { IsUtf8 bytes.now }
    ensures { result.now ≡ bytes.now }
{
    match str::from_utf8(bytes) {
        Ok(text) => text,
        Err(_) => unreachable!(),
    }
}

/// Whether a quoted text or a comment has no end.
fn is_unfinished(lexed: &Lexed<'_>, characters: &Characters) -> bool
    ensures { result ≡ (lexed.now.unfinished || is_in_comment (within_seen characters.now.within)) }
{
    lexed.unfinished || characters.within.is_in_comment()
}

/// The library of a text, given its tokens, and whether one of them or a comment has no end.
fn read_tokens(
    alloc: Global,
    text: &[u8],
    tokens: &[Token<'_>],
    unfinished: bool,
) -> Result<Library, Stop<At<LibKind>>>
    requires { IsLexed text.now (tokens_seen tokens.now) unfinished }
    ensures { Meets result (ReadsText text.now) }
{
    let broken = broken_line(alloc, text, tokens, unfinished)?;
    match broken {
        Some(line) => {
            let kind = LibKind::LibForm;
            Err(Stop::Refused(At { line, kind }))
        }
        None => read_statements(alloc, tokens),
    }
}

/// The library of tokens that are one of the grammar's texts, or its first fault.
fn read_statements(alloc: Global, tokens: &[Token<'_>]) -> Result<Library, Stop<At<LibKind>>>
    ensures { Gives result (read (Ok (tokens_seen tokens.now))) }
{
    let statements = statements(alloc, tokens)?;
    library_if(alloc, statements.as_slice())
}
