//! The grammar of structural Verilog (IEEE 1364-2005), as a table.

ghost use Rattle.std.specs.Prelude.{◌≡◌};
ghost use Rattle.std.specs.Option.{option_map};
ghost use Rattle.netlist_model.proofs.VerilogDecides.{decides, follow};
ghost use Rattle.source_types.specs.declared.verilog_tokens.VerilogSymbol.TheVariants as part;
ghost use Rattle.netlist_model.specs.VerilogGrammar as spec;

use crate::syntax::bits_grammar;
use crate::syntax::kind_numbers::same_kind;
use source_types::{VerilogSymbol as Symbol, VerilogToken as Kind};
use token_grammar::Grammar;

/// What stands after a token, or `None` where it cannot stand there.
pub type After = Option<&'static [Symbol]>;

/// The grammar of netlists.
pub struct Netlists;

impl Grammar for Netlists {
    type Symbol = Symbol;

    type Kind = Kind;

    ghost table = { spec.verilog };

    ghost follow = { follow };

    fn next(symbol: Symbol, kind: Kind) -> After {
        match symbol {
            Symbol::Token(token) => token_itself(token, kind),
            Symbol::Source => source(kind),
            Symbol::Header => header(kind),
            Symbol::Ports => ports(kind),
            Symbol::ListedPorts => listed_ports(kind),
            Symbol::DeclaredPort => declared_port(kind),
            Symbol::NamedPort => named_port(kind),
            Symbol::DeclaredPorts => declared_ports(kind),
            Symbol::NextPort => next_port(kind),
            Symbol::Statements => statements(kind),
            Symbol::PortStatements => port_statements(kind),
            Symbol::Declaration => declaration(kind),
            Symbol::PortDeclaration => port_declaration(kind),
            Symbol::Names => names(kind),
            Symbol::Bound => bits_grammar::bound(kind),
            Symbol::Assignments => bits_grammar::assignments(kind),
            Symbol::Left => bits_grammar::left(kind),
            Symbol::LeftParts => bits_grammar::left_parts(kind),
            Symbol::Select => bits_grammar::select(kind),
            Symbol::SelectEnd => bits_grammar::select_end(kind),
            Symbol::Index => bits_grammar::index(kind),
            Symbol::Bits => bits_grammar::bits(kind),
            Symbol::Parts => bits_grammar::parts(kind),
            Symbol::Instances => bits_grammar::instances(kind),
            Symbol::Connections => bits_grammar::connections(kind),
            Symbol::Connected => bits_grammar::bits(kind),
            Symbol::OrderedConnections => bits_grammar::ordered_connections(kind),
            Symbol::NamedConnections => bits_grammar::named_connections(kind),
        }
    }

    fn is_nullable(symbol: Symbol) -> bool {
        matches!(symbol, Symbol::Source | Symbol::Select | Symbol::Connected)
    }

    ghost decides = { decides };
}

/// A token.
fn token_itself(token: Kind, kind: Kind) -> After
    ensures { option_map (λ after. after.now) result ≡ spec.next (part.Token token) kind }
{
    if same_kind(token, kind) {
        Some(&[])
    } else {
        None
    }
}

/// Modules.
fn source(kind: Kind) -> After
    ensures { option_map (λ after. after.now) result ≡ spec.source kind }
{
    match kind {
        Kind::Module => Some(&[Symbol::Token(Kind::Name), Symbol::Header, Symbol::Source]),
        _ => None,
    }
}

/// A module after its name.
fn header(kind: Kind) -> After
    ensures { option_map (λ after. after.now) result ≡ spec.header kind }
{
    match kind {
        Kind::Semicolon => Some(&[Symbol::Statements]),
        Kind::Open => Some(&[Symbol::Ports]),
        _ => None,
    }
}

/// The ports of a header: none, a list of names, or one of declarations.
fn ports(kind: Kind) -> After
    ensures { option_map (λ after. after.now) result ≡ spec.ports kind }
{
    match kind {
        Kind::Close => Some(&[Symbol::Token(Kind::Semicolon), Symbol::Statements]),
        Kind::Name => Some(&[Symbol::ListedPorts]),
        Kind::Input | Kind::Output | Kind::Inout => Some(&[Symbol::DeclaredPort]),
        _ => None,
    }
}

/// More names of a list of ports.
fn listed_ports(kind: Kind) -> After
    ensures { option_map (λ after. after.now) result ≡ spec.listed_ports kind }
{
    match kind {
        Kind::Comma => Some(&[Symbol::Token(Kind::Name), Symbol::ListedPorts]),
        Kind::Close => Some(&[Symbol::Token(Kind::Semicolon), Symbol::PortStatements]),
        _ => None,
    }
}

/// A declared port after the kind of its net.
fn named_port(kind: Kind) -> After
    ensures { option_map (λ after. after.now) result ≡ spec.named_port kind }
{
    match kind {
        Kind::OpenBracket => Some(&[
            Symbol::Bound,
            Symbol::Token(Kind::Colon),
            Symbol::Bound,
            Symbol::Token(Kind::CloseBracket),
            Symbol::Token(Kind::Name),
            Symbol::DeclaredPorts,
        ]),
        Kind::Name => Some(&[Symbol::DeclaredPorts]),
        _ => None,
    }
}

/// A declared port after its direction.
fn declared_port(kind: Kind) -> After
    ensures { option_map (λ after. after.now) result ≡ spec.declared_port kind }
{
    match kind {
        Kind::Wire | Kind::Tri => Some(&[Symbol::NamedPort]),
        _ => named_port(kind),
    }
}

/// More declared ports.
fn declared_ports(kind: Kind) -> After
    ensures { option_map (λ after. after.now) result ≡ spec.declared_ports kind }
{
    match kind {
        Kind::Comma => Some(&[Symbol::NextPort]),
        Kind::Close => Some(&[Symbol::Token(Kind::Semicolon), Symbol::Statements]),
        _ => None,
    }
}

/// A declared port after a comma.
fn next_port(kind: Kind) -> After
    ensures { option_map (λ after. after.now) result ≡ spec.next_port kind }
{
    match kind {
        Kind::Name => Some(&[Symbol::DeclaredPorts]),
        Kind::Input | Kind::Output | Kind::Inout => Some(&[Symbol::DeclaredPort]),
        _ => None,
    }
}

/// Statements of a module without a list of names.
fn statements(kind: Kind) -> After
    ensures { option_map (λ after. after.now) result ≡ spec.statements kind }
{
    match kind {
        Kind::EndModule => Some(&[]),
        Kind::Wire | Kind::Tri | Kind::Supply0 | Kind::Supply1 => Some(&[
            Symbol::Declaration,
            Symbol::Statements,
        ]),
        Kind::Assign => Some(&[
            Symbol::Left,
            Symbol::Token(Kind::Equals),
            Symbol::Bits,
            Symbol::Assignments,
            Symbol::Statements,
        ]),
        Kind::Name => Some(&[
            Symbol::Token(Kind::Name),
            Symbol::Token(Kind::Open),
            Symbol::Connections,
            Symbol::Instances,
            Symbol::Statements,
        ]),
        _ => None,
    }
}

/// Statements of a module, port declarations among them.
fn port_statements(kind: Kind) -> After
    ensures { option_map (λ after. after.now) result ≡ spec.port_statements kind }
{
    match kind {
        Kind::EndModule => Some(&[]),
        Kind::Input | Kind::Output | Kind::Inout => Some(&[
            Symbol::PortDeclaration,
            Symbol::PortStatements,
        ]),
        Kind::Wire | Kind::Tri | Kind::Supply0 | Kind::Supply1 => Some(&[
            Symbol::Declaration,
            Symbol::PortStatements,
        ]),
        Kind::Assign => Some(&[
            Symbol::Left,
            Symbol::Token(Kind::Equals),
            Symbol::Bits,
            Symbol::Assignments,
            Symbol::PortStatements,
        ]),
        Kind::Name => Some(&[
            Symbol::Token(Kind::Name),
            Symbol::Token(Kind::Open),
            Symbol::Connections,
            Symbol::Instances,
            Symbol::PortStatements,
        ]),
        _ => None,
    }
}

/// A declaration of nets after its keyword.
fn declaration(kind: Kind) -> After
    ensures { option_map (λ after. after.now) result ≡ spec.declaration kind }
{
    match kind {
        Kind::OpenBracket => Some(&[
            Symbol::Bound,
            Symbol::Token(Kind::Colon),
            Symbol::Bound,
            Symbol::Token(Kind::CloseBracket),
            Symbol::Token(Kind::Name),
            Symbol::Names,
        ]),
        Kind::Name => Some(&[Symbol::Names]),
        _ => None,
    }
}

/// A declaration of ports after its direction.
fn port_declaration(kind: Kind) -> After
    ensures { option_map (λ after. after.now) result ≡ spec.port_declaration kind }
{
    match kind {
        Kind::Wire | Kind::Tri => Some(&[Symbol::Declaration]),
        _ => declaration(kind),
    }
}

/// More names of a declaration.
fn names(kind: Kind) -> After
    ensures { option_map (λ after. after.now) result ≡ spec.names kind }
{
    match kind {
        Kind::Comma => Some(&[Symbol::Token(Kind::Name), Symbol::Names]),
        Kind::Semicolon => Some(&[]),
        _ => None,
    }
}
