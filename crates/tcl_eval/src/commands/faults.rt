//! Faults of a script, as faults of its run.

ghost use Rattle.std.specs.Prelude.{◌≡◌};
ghost use Rattle.sdc_base.specs.declared.memory.Stop.TheVariants as stop;
ghost use Rattle.source_types.specs.declared.kinds.Kind.TheVariants as kinds;
ghost use Rattle.tcl_eval.specs.Worlds.{as_answer};

use sdc_base::Stop;
use source_types::{Kind, TclKind};

/// A fault of a script.
pub fn refuse(kind: TclKind) -> Stop<Kind>
    ensures { result ≡ stop.Refused (kinds.Tcl kind) }
{
    Stop::Refused(Kind::Tcl(kind))
}

/// An answer of a rule of scripts, as one of a run.
pub fn tcl_answer<T>(answer: Result<T, Stop<TclKind>>) -> Result<T, Stop<Kind>>
    ensures { result ≡ as_answer answer }
{
    match answer {
        Ok(value) => Ok(value),
        Err(Stop::Refused(kind)) => Err(Stop::Refused(Kind::Tcl(kind))),
        Err(Stop::NoMemory) => Err(Stop::NoMemory),
    }
}
