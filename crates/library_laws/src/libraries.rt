//! That the bytes of a library have one meaning, and that a library that they mean can be used.

ghost use Rattle.std.specs.Prelude.{List, ℕ, Ok};
ghost use Rattle.source_types.specs.declared.libraries.Library.{Library};
ghost use Rattle.design_model.specs.UsableLibrary.{IsWellFormedLibrary};
ghost use Rattle.library_model.specs.LibertyText.{HasMeaning, HasOneMeaning, ReadsLibrary};

/// Bytes mean a library or have a first fault, and never two of these. So a fault comes exactly where the definitions
/// have no library.
pub fn libraries_have_one_meaning()
    ensures some { (bytes : List ℕ) → HasMeaning bytes }
    ensures one { (bytes : List ℕ) → HasOneMeaning bytes }
{}

/// A library that bytes mean can be used: its unit is one of the four, no two of its cells have one name, and each cell
/// that is not refused has at most 60,000 pins, arcs and checks between its own pins, and functions of at most ten of
/// its own inputs. That is all that flattening takes for granted of a library (`CanFlatten`).
pub fn read_libraries_can_be_used()
    ensures { (bytes : List ℕ) (library : Library)
        → ReadsLibrary bytes (Ok library) → IsWellFormedLibrary library }
{}
