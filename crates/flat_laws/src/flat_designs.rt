//! That what can be flattened has one flat design.

ghost use Rattle.std.specs.Prelude.{◌≡◌, List, ℕ, Result};
ghost use Rattle.sdc_base.specs.declared.memory.At.{At};
ghost use Rattle.timing_types.specs.declared.designs.Design.{Design};
ghost use Rattle.source_types.specs.declared.fault_kinds.DesignKind.{DesignKind};
ghost use Rattle.source_types.specs.declared.libraries.Library.{Library};
ghost use Rattle.source_types.specs.declared.netlists.Module.{Module};
ghost use Rattle.flat_model.specs.Flattening.{CanFlatten, Flattens};

/// Modules, a library and the name of a top have one outcome: never two flat designs, two first faults, or a flat
/// design and a fault. So the pins, cells and nets of a flat design, their order, their names and their drivers are
/// determined, and so are the line and the kind of the first fault.
pub fn netlists_have_one_flat_design()
    ensures { (modules : List Module) (library : Library) (top : List ℕ)
        (one other : Result Design (At DesignKind)) → CanFlatten modules library
        → Flattens modules library top one → Flattens modules library top other → one ≡ other }
{}
