//! The ports of a module (IEEE 1364-2005, ports).
//!
//! Each function here has want of memory as its one error.

ghost use Rattle.std.specs.Prelude.{◌≡◌, ◌++◌, map, IfOk, OnOk};
ghost use Rattle.std.specs.List.{filter_map};
ghost use Rattle.std.specs.Option.{option_to_list};
ghost use Rattle.netlist_model.specs.VerilogNets as spec;
ghost use Rattle.netlist_model.specs.VerilogSyntax as syntax;
ghost use Rattle.verilog_net.specs.Modules.{written_seen};
ghost use Rattle.verilog_net.specs.Names.{IsTied, declarations_of};
ghost use Rattle.verilog_net.specs.Seen.{tokens_seen};
ghost use Rattle.verilog_net.specs.Syntax.{declareds_seen};
ghost use Rattle.verilog_net.specs.Wires.{texts};

use crate::checking::names::Names;
use crate::lexing::tokens::Token;
use crate::parsing::declarations::{Declared, Role};
use crate::parsing::written::Written;
use sdc_base::{List, NoMemory, Text};
use source_types::Port;
use std::alloc::Global;

/// Adds the names of declarations.
fn add_declared_names<'a>(
    declared: &[Declared<'a>],
    names: &mut Vec<Token<'a>>,
) -> Result<(), NoMemory>
    ensures { OnOk result (texts (tokens_seen names.new.items) ≡ texts (tokens_seen names.old.items) ++ map (λ (d : syntax.Declared). d.name.text) (declareds_seen declared.now)) }
{
    for one in declared {
        names.push(one.name)?;
    }
    Ok(())
}

/// The names of the ports, in order.
#[tactic(auto, using(crate::proofs::WireFacts::texts_append))]
pub fn port_names<'a>(alloc: Global, written: &Written<'a>) -> Result<Vec<Token<'a>>, NoMemory>
    ensures { IfOk result (λ names. texts (tokens_seen names.items) ≡ spec.port_names (written_seen written.now)) }
{
    let mut names = Vec::new(alloc);
    add_declared_names(written.header.as_slice(), &mut names)?;
    names.extend_from_slice(written.listed.as_slice())?;
    Ok(names)
}

/// Adds the port of a name, if it is declared as one.
fn add_port(
    alloc: Global,
    names: &Names<'_>,
    name: &Token<'_>,
    ports: &mut List<Port>,
) -> Result<(), NoMemory>
    requires { IsTied names.now }
    ensures { OnOk result (ports.new ≡ ports.old ++ option_to_list (spec.port_of (declarations_of names.now) name.now.text.now)) }
{
    let Some(declared) = names.port(name.text) else {
        return Ok(());
    };
    match declared.role {
        Role::Port(direction) => {
            let name = Text::from_str(alloc, name.text)?;
            ports.push(Port {
                name,
                direction,
                range: declared.range,
            })?;
            Ok(())
        }
        Role::Wire => Ok(()),
        Role::Tied(_) => Ok(()),
    }
}

/// The ports of some names.
#[tactic(auto, using(crate::proofs::WireFacts::port_more))]
pub fn ports_of(
    alloc: Global,
    names: &Names<'_>,
    port_names: &[Token<'_>],
) -> Result<List<Port>, NoMemory>
    requires { IsTied names.now }
    ensures { IfOk result (λ ports. ports ≡ filter_map (spec.port_of (declarations_of names.now)) (texts (tokens_seen port_names.now))) }
{
    let mut ports = List::new(alloc);
    for name in port_names {
        add_port(alloc, names, name, &mut ports)?;
    }
    Ok(ports)
}
