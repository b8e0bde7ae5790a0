//! What is passed over whole: braced words, and brackets with the words in them.

ghost use Rattle.std.specs.Prelude.{◌≡◌, ◌≤◌, Bool, false, List, Some, length, drop, IfOk};
ghost use Rattle.text_model.specs.Enclosed as grammar;
ghost use Rattle.tcl_words.specs.Nests.{begins_in, after_of, changed, nest_of, open_of, opens_of, ClosingAt};

use crate::scan::leads_word;
use sdc_base::NoMemory;
use std::alloc::Global;

/// What is open at a place.
#[derive(Clone, Copy)]
pub enum Open {
    Bracket,
    Quote,
    Brace,
}

/// What a byte does where something is open.
#[derive(Clone, Copy)]
enum Change {
    Opens(Open),
    Closes,
    Stays,
}

impl Open {
    /// Whether a word may begin right after what opens it.
    fn begins_word(self) -> bool
        ensures { result ≡ begins_in self }
    {
        match self {
            Open::Bracket => true,
            Open::Quote | Open::Brace => false,
        }
    }

    /// What a byte does in it, `begins` telling whether a word may begin there.
    fn change(self, begins: bool, byte: u8) -> Change
        ensures { (outer : List grammar.Open) → changed (open_of self) outer result ≡ grammar.opened (open_of self) outer begins byte }
    {
        match self {
            Open::Bracket => change_in_bracket(begins, byte),
            Open::Quote => change_in_quote(byte),
            Open::Brace => change_in_brace(byte),
        }
    }
}

fn change_in_bracket(begins: bool, byte: u8) -> Change
    ensures { (outer : List grammar.Open) → changed grammar.bracket outer result ≡ grammar.opened grammar.bracket outer begins byte }
{
    if byte == b'[' {
        return Change::Opens(Open::Bracket);
    }
    if byte == b']' {
        return Change::Closes;
    }
    if byte == b'"' && begins {
        return Change::Opens(Open::Quote);
    }
    if byte == b'{' && begins {
        return Change::Opens(Open::Brace);
    }
    Change::Stays
}

fn change_in_quote(byte: u8) -> Change
    ensures { (outer : List grammar.Open) (begins : Bool) → changed grammar.quote outer result ≡ grammar.opened grammar.quote outer begins byte }
{
    if byte == b'[' {
        return Change::Opens(Open::Bracket);
    }
    if byte == b'"' {
        return Change::Closes;
    }
    Change::Stays
}

fn change_in_brace(byte: u8) -> Change
    ensures { (outer : List grammar.Open) (begins : Bool) → changed grammar.brace outer result ≡ grammar.opened grammar.brace outer begins byte }
{
    if byte == b'{' {
        return Change::Opens(Open::Brace);
    }
    if byte == b'}' {
        return Change::Closes;
    }
    Change::Stays
}

/// What is open at a place: the innermost, and what is open around it, the outermost first.
#[derive(Drop)]
struct Nest {
    inner: Open,
    outer: Vec<Open>,
}

impl Nest {
    /// What is open after a byte, `begins` telling whether a word may begin at it; `None` where it closes all.
    fn after(self, begins: bool, byte: u8) -> Result<Option<Nest>, NoMemory>
        ensures { IfOk result (λ found. nest_of found ≡ grammar.opened (open_of self.inner) (opens_of self.outer.items) begins byte) }
    {
        let Nest { inner, mut outer } = self;
        match inner.change(begins, byte) {
            Change::Opens(within) => {
                outer.push(inner)?;
                Ok(Some(Nest {
                    inner: within,
                    outer,
                }))
            }
            Change::Closes => match outer.pop() {
                Some(around) => Ok(Some(Nest {
                    inner: around,
                    outer,
                })),
                None => Ok(None),
            },
            Change::Stays => Ok(Some(Nest { inner, outer })),
        }
    }
}

/// The place after what is opened right before a place, where it has its end. The one error is want of memory.
pub fn closing(
    alloc: Global,
    bytes: &[u8],
    from: usize,
    first: Open,
) -> Result<Option<usize>, NoMemory>
    requires { from ≤ length bytes.now }
    ensures { IfOk result (λ found. ClosingAt bytes.now from (after_of first (drop from bytes.now)) found) }
{
    let nest = Nest {
        inner: first,
        outer: Vec::new(alloc),
    };
    nest_end(bytes, from, nest, first.begins_word())
}

/// The place after all that is open at a place, where each has its end; `begins` tells whether a word may begin
/// there. The one error is want of memory.
#[tactic(auto, using(crate::proofs::NestFacts::nest_begins, crate::proofs::NestFacts::nest_skips, crate::proofs::NestFacts::nest_passes, crate::proofs::NestFacts::nest_ends, crate::proofs::NestFacts::nest_ends_skipped, crate::proofs::NestFacts::nest_closes))]
fn nest_end(bytes: &[u8], from: usize, nest: Nest, begins: bool) -> Result<Option<usize>, NoMemory>
    requires { from ≤ length bytes.now }
    ensures { IfOk result (λ found. ClosingAt bytes.now from (grammar.after_open (nest_of (Some nest)) begins false (drop from bytes.now)) found) }
{
    let mut nest = nest;
    let mut begins = begins;
    let mut at = from;
    while at < bytes.len() {
        let byte = bytes[at];
        if byte == b'\\' {
            if at + 1 == bytes.len() {
                return Ok(None);
            }
            begins = bytes[at + 1] == b'\n';
            at += 2;
            continue;
        }
        let Some(next) = nest.after(begins, byte)? else {
            return Ok(Some(at + 1));
        };
        nest = next;
        begins = leads_word(byte);
        at += 1;
    }
    Ok(None)
}
