//! Who answers the commands of a script that are not built in.

ghost use Rattle.std.specs.Prelude.{◌≡◌, IfOk};
ghost use Rattle.sdc_base.specs.Gives.{Meets};
ghost use Rattle.tcl_model.specs.HostCalls.{Answered, Host};

use sdc_base::{List, NoMemory, Stop, Text};
use source_types::Kind;
use timing_types::{Object, Value};

/// A host of a script: it answers each command that is not built in, and keeps its allocator.
///
/// `host` is what a host means: what it may answer to a call in a state, with the state that it is then left in, and
/// the names of objects. `state` is what of a host counts there. Code over any host is proved once, by these members.
pub trait Commands {
    /// What of a host its answers hang on, and what calls change.
    ghost State: { Type 0 };

    /// The state that a host is in.
    ghost state: { Self → State };

    /// The answers and the names.
    ghost host: { Host State };

    /// Answers a command, by the line of the outermost command, its name and the values of the words after the name.
    /// Where it refuses for another cause than memory, the host is as it was; after want of memory nothing is said of
    /// it.
    fn call(&mut self, line: u32, name: &Text, words: &List<Value>) -> Result<Value, Stop<Kind>>
        ensures { Meets result (λ given. Answered (host.Answers line name.now words.now) (state self.old) given (state self.new)) };

    /// The Tcl list of the names of objects. The one error is want of memory.
    fn names(&self, objects: &List<Object>) -> Result<Text, NoMemory>
        ensures { IfOk result (λ names. names ≡ host.names (state self.now) objects.now) };
}
