//! Modules as short texts, for tests: a module's name with its line, its ports, its nets, its instances with their
//! lines, and its assignments.

use sdc_base::{NoMemory, Stop};
use source_types::{Assign, Bit, Instance, Link, Links, Module, Port, Range, Wire};
use std::alloc::Global;
use verilog_net::read_verilog;

/// A bit after a blank: its name with its index, or its value.
fn show_bit(alloc: Global, shown: &mut String, bit: &Bit) -> Result<(), NoMemory> {
    let text = match bit {
        Bit::Net {
            name,
            index: Some(index),
        } => format!(in alloc; " {}[{index}]", name.as_str())?,
        Bit::Net { name, index: None } => format!(in alloc; " {}", name.as_str())?,
        Bit::Constant(Some(true)) => String::from_str(alloc, " 1")?,
        Bit::Constant(Some(false)) => String::from_str(alloc, " 0")?,
        Bit::Constant(None) => String::from_str(alloc, " x")?,
    };
    shown.push_str(text.as_str())?;
    Ok(())
}

/// Bits, from the leftmost on.
fn show_bits(alloc: Global, shown: &mut String, bits: &[Bit]) -> Result<(), NoMemory> {
    for bit in bits {
        show_bit(alloc, shown, bit)?;
    }
    Ok(())
}

/// A range in brackets, where there is one.
fn show_range(alloc: Global, shown: &mut String, range: Option<Range>) -> Result<(), NoMemory> {
    let Some(range) = range else {
        return Ok(());
    };
    let text = format!(in alloc; "[{}:{}]", range.left, range.right)?;
    shown.push_str(text.as_str())?;
    Ok(())
}

/// A port: its name, its direction and its range.
fn show_port(alloc: Global, shown: &mut String, port: &Port) -> Result<(), NoMemory> {
    let text = format!(in alloc; " port {}:{:?}", port.name.as_str(), port.direction)?;
    shown.push_str(text.as_str())?;
    show_range(alloc, shown, port.range)
}

/// A net: its name, its range, and the value that it is tied to.
fn show_net(alloc: Global, shown: &mut String, net: &Wire) -> Result<(), NoMemory> {
    let text = format!(in alloc; " net {}", net.name.as_str())?;
    shown.push_str(text.as_str())?;
    show_range(alloc, shown, net.range)?;
    match net.tie {
        Some(true) => shown.push_str("=1")?,
        Some(false) => shown.push_str("=0")?,
        None => {}
    }
    Ok(())
}

/// Ordered connections, each in parentheses.
fn show_ordered(
    alloc: Global,
    shown: &mut String,
    connections: &[sdc_base::List<Bit>],
) -> Result<(), NoMemory> {
    for bits in connections {
        shown.push_str(" (")?;
        show_bits(alloc, shown, bits.as_slice())?;
        shown.push_str(")")?;
    }
    Ok(())
}

/// Named connections, each after the name of its port.
fn show_named(alloc: Global, shown: &mut String, links: &[Link]) -> Result<(), NoMemory> {
    for link in links {
        let text = format!(in alloc; " .{}(", link.port.as_str())?;
        shown.push_str(text.as_str())?;
        show_bits(alloc, shown, link.bits.as_slice())?;
        shown.push_str(")")?;
    }
    Ok(())
}

/// An instance: its kind, its name, its line and its connections.
fn show_instance(alloc: Global, shown: &mut String, instance: &Instance) -> Result<(), NoMemory> {
    let text = format!(in alloc;
        " cell {} {} {}",
        instance.kind.as_str(),
        instance.name.as_str(),
        instance.line
    )?;
    shown.push_str(text.as_str())?;
    match &instance.links {
        Links::Ordered(connections) => show_ordered(alloc, shown, connections.as_slice()),
        Links::Named(links) => show_named(alloc, shown, links.as_slice()),
    }
}

/// An assignment: the bits of both sides.
fn show_assign(alloc: Global, shown: &mut String, assign: &Assign) -> Result<(), NoMemory> {
    shown.push_str(" assign")?;
    show_bits(alloc, shown, assign.left.as_slice())?;
    shown.push_str(" =")?;
    show_bits(alloc, shown, assign.right.as_slice())
}

/// The ports of a module.
fn show_ports(alloc: Global, shown: &mut String, module: &Module) -> Result<(), NoMemory> {
    for port in module.ports.as_slice() {
        show_port(alloc, shown, port)?;
    }
    Ok(())
}

/// The nets of a module.
fn show_nets(alloc: Global, shown: &mut String, module: &Module) -> Result<(), NoMemory> {
    for net in module.nets.as_slice() {
        show_net(alloc, shown, net)?;
    }
    Ok(())
}

/// The instances of a module.
fn show_instances(alloc: Global, shown: &mut String, module: &Module) -> Result<(), NoMemory> {
    for instance in module.instances.as_slice() {
        show_instance(alloc, shown, instance)?;
    }
    Ok(())
}

/// The assignments of a module.
fn show_assigns(alloc: Global, shown: &mut String, module: &Module) -> Result<(), NoMemory> {
    for assign in module.assigns.as_slice() {
        show_assign(alloc, shown, assign)?;
    }
    Ok(())
}

/// A module, its name and its line in brackets.
fn show_module(alloc: Global, shown: &mut String, module: &Module) -> Result<(), NoMemory> {
    let text = format!(in alloc; "[{} {}]", module.name.as_str(), module.line)?;
    shown.push_str(text.as_str())?;
    show_ports(alloc, shown, module)?;
    show_nets(alloc, shown, module)?;
    show_instances(alloc, shown, module)?;
    show_assigns(alloc, shown, module)
}

/// Modules, one after the other.
fn show_modules(alloc: Global, modules: &[Module]) -> Result<String, NoMemory> {
    let mut shown = String::new(alloc);
    for module in modules {
        show_module(alloc, &mut shown, module)?;
    }
    Ok(shown)
}

/// What the text of a netlist means, or its first fault.
pub fn show_text(alloc: Global, text: &str) -> Result<String, NoMemory> {
    match read_verilog(alloc, text.as_bytes()) {
        Ok(modules) => show_modules(alloc, modules.as_slice()),
        Err(Stop::Refused(fault)) => {
            let shown = format!(in alloc; "{}: {:?}", fault.line, fault.kind)?;
            Ok(shown)
        }
        Err(Stop::NoMemory) => Err(NoMemory),
    }
}
