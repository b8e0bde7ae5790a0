//! What modules mean (IEEE 1364-2005).
//!
//! Each function here has want of memory as its one error.

ghost use Rattle.std.specs.Prelude.{◌≡◌, All, map, IfOk};
ghost use Rattle.netlist_model.specs.VerilogNets as spec;
ghost use Rattle.verilog_net.specs.Modules.{written_seen};
ghost use Rattle.verilog_net.specs.Names.{IsNamed, named_modules};

use crate::checking::names::Named;
use crate::meaning::instances::{assigns_of, instances_of};
use crate::meaning::nets::nets_of;
use crate::meaning::ports::{port_names, ports_of};
use sdc_base::{List, NoMemory, Text};
use source_types::Module;
use std::alloc::Global;

/// What a module means.
fn meant_module(alloc: Global, named: &Named<'_>) -> Result<Module, NoMemory>
    requires { IsNamed named.now }
    ensures { IfOk result (λ m. m ≡ spec.meant_module (written_seen named.now.written)) }
{
    let written = &named.written;
    let names = &named.names;
    let statements = written.statements.as_slice();
    let ported = port_names(alloc, written)?;
    let ports = ports_of(alloc, names, ported.as_slice())?;
    let nets = nets_of(
        alloc,
        names,
        ported.as_slice(),
        ports.as_slice(),
        statements,
    )?;
    let instances = instances_of(alloc, names, statements)?;
    let assigns = assigns_of(alloc, names, statements)?;
    let name = Text::from_str(alloc, written.name.text)?;
    Ok(Module {
        name,
        line: written.name.line,
        ports,
        nets,
        instances,
        assigns,
    })
}

/// What modules mean.
pub fn meant_modules(alloc: Global, modules: &[Named<'_>]) -> Result<List<Module>, NoMemory>
    requires { All IsNamed modules.now }
    ensures { IfOk result (λ found. found ≡ map spec.meant_module (named_modules modules.now)) }
{
    let mut found = List::new(alloc);
    for named in modules {
        let one = meant_module(alloc, named)?;
        found.push(one)?;
    }
    Ok(found)
}
