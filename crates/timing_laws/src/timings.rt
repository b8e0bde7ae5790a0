//! What is true of clock edges, arcs, paths and exceptions, whoever finds them.

ghost use Rattle.std.specs.Prelude.{◌≡◌, ◌∷◌, ◌↔◌, ℕ, ℤ, Bool, List, Option, Some, None, slice_get};
ghost use Rattle.timing_types.specs.declared.clocks.Clock.{Clock};
ghost use Rattle.timing_types.specs.declared.constraints.ExCommand.TheVariants.{FalsePath};
ghost use Rattle.timing_types.specs.declared.constraints.Exception.{Exception};
ghost use Rattle.timing_types.specs.declared.designs.Design.{Design};
ghost use Rattle.timing_types.specs.declared.graphs.Graph.{Graph};
ghost use Rattle.timing_types.specs.declared.paths.Path.{Path};
ghost use Rattle.timing_types.specs.declared.paths.PathFacts.{PathFacts};
ghost use Rattle.timing_types.specs.declared.paths.Periods.{Periods};
ghost use Rattle.pin_types.specs.declared.pins.ClockEdge.{ClockEdge};
ghost use Rattle.pin_types.specs.declared.pins.Node.{Node};
ghost use Rattle.pin_types.specs.declared.pins.Side.{Side};
ghost use Rattle.timing_model.specs.AliveArcs.{HasAliveArc, HasArc};
ghost use Rattle.timing_model.specs.Analysis.{Analysis, Alive};
ghost use Rattle.timing_model.specs.Arrival.{Arrives, IsSourceOf};
ghost use Rattle.timing_model.specs.Limit.{winning};
ghost use Rattle.timing_model.specs.Matching.{AreFactsOf, FactsMatchAt, Matches, MatchesAt};
ghost use Rattle.timing_model.specs.Timed.{HasLimit, IsCandidate};
ghost use Rattle.timing_model.specs.TimingGraph.{IsGraphOf};
ghost use Rattle.design_model.specs.LibraryArcs.{IsLaunching, IsChecked};
ghost use Rattle.timing_model.specs.TimingPath.{BetweenEnds, IsPath};
ghost use Rattle.design_model.specs.WellFormedDesign.{IsWellFormedDesign};
ghost use Rattle.timing_model.specs.WellFormedGraph.{IsWellFormedGraph};
ghost use Rattle.timing_model.specs.Winner.{IsWinner, StandsBefore};

/// A clock edge arrives at the pins that its clock is defined at, by a walk of no arc.
pub fn clocks_arrive_at_their_sources()
    ensures { (graph : Graph) (alive : List Bool) (clocks : List Clock)
        (edge : ClockEdge) (node : Node)
        → node.edge ≡ edge.edge → IsSourceOf clocks edge.clock node.pin
        → Arrives (HasAliveArc graph alive) clocks edge node }
{}

/// The launching and the checked pins of a path stand at its ends alone.
pub fn launching_and_checked_pins_end_paths()
    ensures { (design : Design) (graph : Graph) (last : Node) (before : List Node)
        → IsGraphOf design graph → IsPath (HasArc graph) design graph (last ∷ before)
        → BetweenEnds (λ node.
        (IsLaunching design node.pin.0 → ⊥) × (IsChecked design node.pin.0 → ⊥)) before }
{}

/// A candidate is a path of arcs that are alive.
pub fn candidates_are_paths()
    ensures { (analysis : Analysis) (path : Path) (side : Side) → IsCandidate analysis path side
        → IsPath (Alive analysis) analysis.design analysis.graph path.nodes }
{}

/// The graph of a well-formed design is well-formed.
pub fn graphs_of_designs_are_well_formed()
    ensures { (design : Design) (graph : Graph)
        → IsWellFormedDesign design → IsGraphOf design graph → IsWellFormedGraph graph }
{}

/// The exception that wins matches, and no other one that matches stands before it.
pub fn winners_are_best_matches()
    ensures { (exceptions : List Exception) (path : Path) (side : Side) (periods : Periods)
        (place : ℕ) (exception : Exception) → slice_get exceptions place ≡ Some exception
        → IsWinner exceptions (MatchesAt exceptions path side) side periods place
        → Matches exception side path
        × ((at : ℕ) (other : Exception) → slice_get exceptions at ≡ Some other
        → Matches other side path → StandsBefore side periods other at exception place → ⊥) }
{}

/// The facts of a path match as the path does.
pub fn facts_match_as_their_path()
    ensures { (exceptions : List Exception) (path : Path) (facts : PathFacts) (side : Side)
        (place : ℕ) → AreFactsOf exceptions path facts
        → MatchesAt exceptions path side place ↔ FactsMatchAt exceptions facts side place }
{}

/// No more than one exception wins on a path and a side.
pub fn one_exception_wins()
    ensures { (exceptions : List Exception) (path : Path) (side : Side) (periods : Periods)
        (place other : ℕ)
        → IsWinner exceptions (MatchesAt exceptions path side) side periods place
        → IsWinner exceptions (MatchesAt exceptions path side) side periods other
        → place ≡ other }
{}

/// A path has no limit exactly where its winner is a false path.
pub fn false_paths_alone_take_limits()
    ensures { (analysis : Analysis) (path : Path) (side : Side) (limit : Option ℤ)
        (is : HasLimit analysis path side limit)
        → (limit ≡ None) ↔ ((exception : Exception)
        × (winning analysis.mode.exceptions is.2.winner ≡ Some exception)
        × (exception.command ≡ FalsePath)) }
{}

/// A path has no more than one limit on a side.
pub fn paths_have_one_limit()
    ensures { (analysis : Analysis) (path : Path) (side : Side) (limit other : Option ℤ)
        → HasLimit analysis path side limit → HasLimit analysis path side other → limit ≡ other }
{}
