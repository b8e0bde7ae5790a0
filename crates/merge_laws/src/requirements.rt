//! What is true of requirements, whoever finds them.

ghost use Rattle.std.specs.Prelude.{ℤ, List, Option};
ghost use Rattle.std.specs.List.{Contains};
ghost use Rattle.timing_types.specs.declared.paths.Path.{Path};
ghost use Rattle.pin_types.specs.declared.pins.Side.{Side};
ghost use Rattle.timing_model.specs.AnalysedModes.{AnalysedMode};
ghost use Rattle.merge_model.specs.Required.{RequirementIs};

/// The same modes have the same requirements, in whatever order and however often each is given.
pub fn same_modes_have_same_requirements()
    ensures { (modes others : List AnalysedMode) (path : Path) (side : Side) (requirement : Option ℤ)
        → ((mode : AnalysedMode) → Contains modes mode → Contains others mode)
        → ((mode : AnalysedMode) → Contains others mode → Contains modes mode)
        → RequirementIs modes path side requirement → RequirementIs others path side requirement }
{}
