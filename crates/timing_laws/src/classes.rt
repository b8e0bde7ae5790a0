//! What is true of classes of paths, whoever finds them.

ghost use Rattle.std.specs.Prelude.{◌≤◌, ◌∷◌, ℕ, List};
ghost use Rattle.timing_types.specs.declared.constraints.Through.{Through};
ghost use Rattle.pin_types.specs.declared.pins.Node.{Node};
ghost use Rattle.timing_model.specs.Classes.{IsMostMet};

/// A prefix that goes on loses no through list that it has met.
pub fn prefixes_lose_no_met_list()
    ensures { (lists : List Through) (node : Node) (nodes : List Node) (count more : ℕ)
        → IsMostMet lists nodes count → IsMostMet lists (node ∷ nodes) more → count ≤ more }
{}
