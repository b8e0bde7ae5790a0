//! That the bytes of a netlist have one meaning, and that a netlist that they mean can be flattened.

ghost use Rattle.std.specs.Prelude.{List, ℕ, Ok};
ghost use Rattle.source_types.specs.declared.netlists.Module.{Module};
ghost use Rattle.netlist_model.specs.Verilog.{HasMeaning, HasOneMeaning, ReadsVerilog};
ghost use Rattle.netlist_model.specs.WellFormedNetlist.{IsWellFormedNetlist};

/// Bytes mean modules or have a first fault, and never two of these. So a fault comes exactly where the definitions
/// have no modules.
pub fn netlists_have_one_meaning()
    ensures some { (bytes : List ℕ) → HasMeaning bytes }
    ensures one { (bytes : List ℕ) → HasOneMeaning bytes }
{}

/// A netlist that bytes mean can be flattened: no two of its modules have one name, and no two nets of a module; the
/// nets of a module begin with its ports, none of which is an `inout`; each bit that an instance connects, or that is
/// assigned, is a constant or a bit of a net of the module; and the two sides of an assignment have one width, the left
/// one without constants. That is all that flattening takes for granted of a netlist (`CanFlatten`).
pub fn read_netlists_can_be_flattened()
    ensures { (bytes : List ℕ) (modules : List Module)
        → ReadsVerilog bytes (Ok modules) → IsWellFormedNetlist modules }
{}
