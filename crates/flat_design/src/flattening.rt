//! Flattening: modules of a netlist over a library become one design.

ghost use Rattle.std.specs.Prelude.{IfOk};
ghost use Rattle.sdc_base.specs.Gives.{Meets};
ghost use Rattle.flat_model.specs.Flattening.{CanFlatten, Flattens};
ghost use Rattle.design_model.specs.WellFormedDesign.{IsWellFormedDesign};

use crate::assemble::building::build;
use crate::elaborate::instances::elaborate;
use sdc_base::{At, List, Stop, Text};
use source_types::{DesignKind, Library, Module};
use std::alloc::Global;
use timing_types::Design;

/// The design that has a module of a name as its top, or its first fault.
pub fn flatten(
    alloc: Global,
    modules: &List<Module>,
    lib: &Library,
    top: &Text,
) -> Result<Design, Stop<At<DesignKind>>>
    requires { CanFlatten modules.now lib.now }
    ensures flattens { Meets result (λ outcome. Flattens modules.now lib.now top.now outcome) }
    ensures formed { IfOk result IsWellFormedDesign }
{
    match elaborate(alloc, modules.as_slice(), lib, top) {
        Err(stop) => Err(stop),
        Ok(design) => build(alloc, &design),
    }
}
