//! The setup and the hold relation of two clock edges.
ghost use Rattle.timing_model.specs.Relation.{IsEdgeOf, IsRelation};

use crate::common_divisor::greatest_common_divisor;
use timing_types::Relation;

/// The relation of a launch edge at `a`, of a clock of period `p`, and a capture edge at `b`, of period `q`.
///
/// Times are whole femtoseconds, edges from 0 to 2 * 10^12 and periods from 1 to 10^12. The rule is this project's own:
/// over all edges that the two clocks have, `setup` is the least positive difference between a capture and a launch
/// edge, `hold` the greatest that is not above 0.
pub fn relation(a: i64, p: i64, b: i64, q: i64) -> Relation
    requires launch { IsEdgeOf a p }
    requires capture { IsEdgeOf b q }
    ensures { IsRelation a p b q result }
{
    let step = greatest_common_divisor(p.unsigned_abs(), q.unsigned_abs()) as i64;
    // the remainder that is from 1 to `step`, and not from 0
    let setup = (b - a - 1).rem_euclid(step) + 1;
    Relation {
        setup,
        hold: setup - step,
    }
}
