//! The words of a command line.

ghost use Rattle.std.specs.Prelude.{◌≡◌, ◌≤◌, ◌<◌, ◌++◌, Some, length, option_and_then, IfOk, IfSome, OnOk};
ghost use Rattle.sdc_model.specs.Answers.{files_of};
ghost use Rattle.sdc_model.specs.CommandLine.{is_option, arguments_of, are_some, is_budget, is_dash, after_number, after_option, merge_arguments, edges_line, merge_line, command_line, words_of};

use sdc_base::{Duplicate, List, NoMemory, Text};
use sdc_model::CommandLine;
use std::alloc::Global;

/// The most files, or modes, of one run.
const MOST_FILES: usize = 16;

/// The greatest budget of classes.
const GREATEST_BUDGET: u64 = 10_000_000;

/// The command line of these words, or nothing where they are none.
pub fn command_line(alloc: Global, words: &[String]) -> Result<Option<CommandLine>, NoMemory>
    ensures line { IfOk result (λ line. line ≡ command_line (words_of words.now)) }
    ensures few { IfOk result (λ line. IfSome line (λ l. length (files_of l) ≤ 16)) }
{
    let Some((command, rest)) = words.split_first() else {
        return Ok(None);
    };
    if command.as_str() == "edges" {
        return edges_words(alloc, rest);
    }
    if command.as_str() == "merge" {
        return merge_words(alloc, rest);
    }
    Ok(None)
}

/// `edges` of the words after it.
fn edges_words(alloc: Global, words: &[String]) -> Result<Option<CommandLine>, NoMemory>
    ensures line { IfOk result (λ line. line ≡ option_and_then edges_line (arguments_of (words_of words.now))) }
    ensures few { IfOk result (λ line. IfSome line (λ l. length (files_of l) ≤ 16)) }
{
    match arguments(alloc, words)? {
        Some(files) => Ok(edges_line(files)),
        None => Ok(None),
    }
}

/// `edges` of these arguments: its files.
fn edges_line(files: List<Text>) -> Option<CommandLine>
    ensures line { result ≡ edges_line files }
    ensures few { IfSome result (λ l. length (files_of l) ≤ 16) }
{
    if are_some(files.as_slice()) {
        Some(CommandLine::Edges(files))
    } else {
        None
    }
}

/// `merge` of the words after it.
fn merge_words(alloc: Global, words: &[String]) -> Result<Option<CommandLine>, NoMemory>
    ensures line { IfOk result
        (λ line. line ≡ option_and_then merge_line (merge_arguments (words_of words.now))) }
    ensures few { IfOk result (λ line. IfSome line (λ l. length (files_of l) ≤ 16)) }
{
    match merge_arguments(alloc, words)? {
        Some(words) => merge_line(alloc, words.as_slice()),
        None => Ok(None),
    }
}

/// `merge` of these arguments: no top, library and netlist, the merged file and the modes.
fn merge_line(alloc: Global, arguments: &[Text]) -> Result<Option<CommandLine>, NoMemory>
    ensures line { IfOk result (λ line. line ≡ merge_line arguments.now) }
    ensures few { IfOk result (λ line. IfSome line (λ l. length (files_of l) ≤ 16)) }
{
    let [top, library, netlist, out, modes @ ..] = arguments else {
        return Ok(None);
    };
    if !is_dash(top) || !is_dash(library) || !is_dash(netlist) || !are_some(modes) {
        return Ok(None);
    }
    let modes = copies(alloc, modes)?;
    Ok(Some(CommandLine::Merge(out.copy(alloc)?, modes)))
}

/// Copies of texts, in order.
fn copies(alloc: Global, texts: &[Text]) -> Result<List<Text>, NoMemory>
    ensures { IfOk result (λ copies. copies ≡ texts.now) }
{
    let mut copies = List::new(alloc);
    for text in texts {
        copies.push(text.copy(alloc)?)?;
    }
    Ok(copies)
}

/// Whether a word is `-` alone.
fn is_dash(word: &Text) -> bool
    ensures { result ≡ is_dash word.now }
{
    word.as_str() == "-"
}

/// Whether files are as many as one run takes.
fn are_some(files: &[Text]) -> bool
    ensures { result ≡ are_some files.now }
{
    1 <= files.len() && files.len() <= MOST_FILES
}

/// The arguments among words, or nothing where one is an option.
fn arguments(alloc: Global, words: &[String]) -> Result<Option<List<Text>>, NoMemory>
    ensures { IfOk result (λ found. found ≡ arguments_of (words_of words.now)) }
{
    let mut found = List::new(alloc);
    let mut ended = false;
    for word in words {
        if !ended && word.as_str() == "--" {
            ended = true;
            continue;
        }
        if !ended && is_option(word.as_str()) {
            return Ok(None);
        }
        found.push(Text::from_str(alloc, word.as_str())?)?;
    }
    Ok(Some(found))
}

/// The arguments among words after `merge`, or nothing where an option stands among them that it has not.
fn merge_arguments(alloc: Global, words: &[String]) -> Result<Option<List<Text>>, NoMemory>
    ensures { IfOk result (λ found. found ≡ merge_arguments (words_of words.now)) }
{
    let mut found = List::new(alloc);
    for (at, word) in words.iter().enumerate() {
        if is_option(word.as_str()) {
            let others = after_option(alloc, word.as_str(), &words[at + 1..])?;
            return joined(found, others);
        }
        found.push(Text::from_str(alloc, word.as_str())?)?;
    }
    Ok(Some(found))
}

/// The first arguments and the others, where there are others.
fn joined(first: List<Text>, others: Option<List<Text>>) -> Result<Option<List<Text>>, NoMemory>
    ensures { IfOk result (λ all. all ≡ option_and_then (λ o. Some (first ++ o)) others) }
{
    match others {
        Some(others) => {
            let mut all = Vec::from(first);
            all.append(&mut Vec::from(others))?;
            Ok(Some(List::from(all)))
        }
        None => Ok(None),
    }
}

/// The arguments after a word that is an option: `--`, `--tags` or `--tags=N`.
fn after_option(alloc: Global, word: &str, words: &[String]) -> Result<Option<List<Text>>, NoMemory>
    ensures { IfOk result (λ found. found ≡ after_option word.now (words_of words.now)) }
{
    if word == "--" {
        return Ok(Some(texts(alloc, words)?));
    }
    if word == "--tags" {
        return after_number(alloc, words);
    }
    match word.strip_prefix("--tags=") {
        Some(number) if is_budget(number) => arguments(alloc, words),
        _ => Ok(None),
    }
}

/// The arguments after `--tags`: its number, and words without a further option.
fn after_number(alloc: Global, words: &[String]) -> Result<Option<List<Text>>, NoMemory>
    ensures { IfOk result (λ found. found ≡ after_number (words_of words.now)) }
{
    match words.split_first() {
        Some((number, words)) if is_budget(number.as_str()) => arguments(alloc, words),
        _ => Ok(None),
    }
}

/// Words as texts.
fn texts(alloc: Global, words: &[String]) -> Result<List<Text>, NoMemory>
    ensures { IfOk result (λ texts. texts ≡ words_of words.now) }
{
    let mut texts = List::new(alloc);
    for word in words {
        texts.push(Text::from_str(alloc, word.as_str())?)?;
    }
    Ok(texts)
}

/// Whether a text is a budget of classes: an optional `+` and digits, from 1 to 10,000,000.
fn is_budget(text: &str) -> bool
    ensures { result ≡ is_budget text.now }
{
    match text.parse::<u64>() {
        Ok(budget) => 1 <= budget && budget <= GREATEST_BUDGET,
        Err(_) => false,
    }
}

/// Whether a word is an option: two or more bytes, the first one `-`.
fn is_option(word: &str) -> bool
    ensures { result ≡ is_option word.now }
{
    word.len() >= 2 && word.as_bytes()[0] == b'-'
}
