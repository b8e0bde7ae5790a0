//! Kinds of token compared.

ghost use Rattle.std.specs.Prelude.{◌≡◌};
ghost use Rattle.netlist_model.specs.VerilogKinds as grammar;

use source_types::VerilogToken;

/// A number for each kind.
fn kind_number(kind: VerilogToken) -> u8
    ensures { result ≡ grammar.kind_number kind }
{
    match kind {
        VerilogToken::Module => 0,
        VerilogToken::EndModule => 1,
        VerilogToken::Input => 2,
        VerilogToken::Output => 3,
        VerilogToken::Inout => 4,
        VerilogToken::Wire => 5,
        VerilogToken::Tri => 6,
        VerilogToken::Supply0 => 7,
        VerilogToken::Supply1 => 8,
        VerilogToken::Assign => 9,
        VerilogToken::Name => 10,
        VerilogToken::UnlistedName => 11,
        VerilogToken::Size => 12,
        VerilogToken::Number => 13,
        VerilogToken::LargeNumber => 14,
        VerilogToken::Base => 15,
        VerilogToken::Digits => 16,
        VerilogToken::Open => 17,
        VerilogToken::Close => 18,
        VerilogToken::OpenBracket => 19,
        VerilogToken::CloseBracket => 20,
        VerilogToken::OpenBrace => 21,
        VerilogToken::CloseBrace => 22,
        VerilogToken::DeepBrace => 23,
        VerilogToken::Comma => 24,
        VerilogToken::Colon => 25,
        VerilogToken::Semicolon => 26,
        VerilogToken::Dot => 27,
        VerilogToken::Equals => 28,
        VerilogToken::Other => 29,
    }
}

/// Whether two kinds are one.
pub fn same_kind(one: VerilogToken, other: VerilogToken) -> bool
    ensures { result ≡ grammar.same_kind one other }
{
    kind_number(one) == kind_number(other)
}
