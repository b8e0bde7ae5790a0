//! What a `timing` group of a library pin says (Liberty, `timing_type` and `timing_sense`).

ghost use Rattle.std.specs.Prelude.{◌≡◌, Some, None};
ghost use Rattle.library_model.specs.LibertyTiming as liberty;
ghost use Rattle.lib_cells.specs.Timings.{timing_seen};

use pin_types::{Edge, LibArc, LibCheck, Side};
use sdc_base::Text;

/// What a `timing` group gives by its type: cell arcs by sense, to a rise of the output or not and to a fall or not; a
/// launch arc from an edge of the clock; a check at an edge of the clock; or nothing.
#[derive(Clone, Copy)]
pub enum Timing {
    CellArc(bool, bool),
    Launch(Edge),
    Check(Side, Edge),
    PassedOver,
}

/// The timing of a type by its name. Which types are passed over is this project's own.
fn timing_of(name: &str) -> Timing
    ensures { timing_seen result ≡ liberty.timing_named (Some name.now) }
{
    match name {
        "combinational" => Timing::CellArc(true, true),
        "three_state_enable" => Timing::CellArc(true, true),
        "three_state_disable" => Timing::CellArc(true, true),
        "combinational_rise" => Timing::CellArc(true, false),
        "combinational_fall" => Timing::CellArc(false, true),
        "rising_edge" => Timing::Launch(Edge::Rise),
        "falling_edge" => Timing::Launch(Edge::Fall),
        "setup_rising" => Timing::Check(Side::Setup, Edge::Rise),
        "setup_falling" => Timing::Check(Side::Setup, Edge::Fall),
        "recovery_rising" => Timing::Check(Side::Setup, Edge::Rise),
        "recovery_falling" => Timing::Check(Side::Setup, Edge::Fall),
        "hold_rising" => Timing::Check(Side::Hold, Edge::Rise),
        "hold_falling" => Timing::Check(Side::Hold, Edge::Fall),
        "removal_rising" => Timing::Check(Side::Hold, Edge::Rise),
        "removal_falling" => Timing::Check(Side::Hold, Edge::Fall),
        _ => Timing::PassedOver,
    }
}

/// The timing of the type that a `timing` group says, combinational where it says none.
pub fn timing_named(name: &Option<Text>) -> Timing
    ensures { timing_seen result ≡ liberty.timing_named name.now }
{
    match name {
        None => Timing::CellArc(true, true),
        Some(name) => timing_of(name.as_str()),
    }
}

/// Whether a sense joins equal transitions.
fn joins_equal(sense: &Option<Text>) -> bool
    ensures { result ≡ liberty.joins_equal sense.now }
{
    match sense {
        None => true,
        Some(sense) => sense.as_str() != "negative_unate",
    }
}

/// Whether a sense joins opposite transitions.
fn joins_opposite(sense: &Option<Text>) -> bool
    ensures { result ≡ liberty.joins_opposite sense.now }
{
    match sense {
        None => true,
        Some(sense) => sense.as_str() != "positive_unate",
    }
}

/// The cell arc between two pins, by their places, to a rise or not and to a fall or not.
fn cell_arc(from: u16, to: u16, to_rise: bool, to_fall: bool, sense: &Option<Text>) -> LibArc
    ensures { result ≡ liberty.cell_arc_of from to to_rise to_fall sense.now }
{
    let equal = joins_equal(sense);
    let opposite = joins_opposite(sense);
    LibArc {
        from,
        to,
        rise_rise: equal && to_rise,
        rise_fall: opposite && to_fall,
        fall_rise: opposite && to_rise,
        fall_fall: equal && to_fall,
        launch: false,
    }
}

/// The launch arc from an edge of a clock pin to both edges of another pin.
fn launch_arc(from: u16, to: u16, edge: Edge) -> LibArc
    ensures { result ≡ liberty.launch_arc_of from to edge }
{
    match edge {
        Edge::Rise => LibArc {
            from,
            to,
            rise_rise: true,
            rise_fall: true,
            fall_rise: false,
            fall_fall: false,
            launch: true,
        },
        Edge::Fall => LibArc {
            from,
            to,
            rise_rise: false,
            rise_fall: false,
            fall_rise: true,
            fall_fall: true,
            launch: true,
        },
    }
}

/// The arc between two pins that a timing and a sense give, if they give one.
pub fn arc_of(from: u16, to: u16, timing: Timing, sense: &Option<Text>) -> Option<LibArc>
    ensures { result ≡ liberty.arc_of from to (timing_seen timing) sense.now }
{
    match timing {
        Timing::CellArc(to_rise, to_fall) => Some(cell_arc(from, to, to_rise, to_fall, sense)),
        Timing::Launch(edge) => Some(launch_arc(from, to, edge)),
        Timing::Check(_, _) | Timing::PassedOver => None,
    }
}

/// The check of a pin against a clock pin that a timing gives, if it gives one.
pub fn check_of(clock: u16, pin: u16, timing: Timing) -> Option<LibCheck>
    ensures { result ≡ liberty.check_of clock pin (timing_seen timing) }
{
    match timing {
        Timing::Check(side, clock_edge) => Some(LibCheck {
            pin,
            clock,
            clock_edge,
            side,
        }),
        Timing::CellArc(_, _) | Timing::Launch(_) | Timing::PassedOver => None,
    }
}
