//! Whether the clocks of modes can be merged by their own waveforms alone.

ghost use Rattle.std.specs.Prelude.{◌↔◌, IsTrue};
ghost use Rattle.merge_model.specs.PlainViews.{IsPrimary, ArePrimary, ArePlain};

use sdc_base::List;
use timing_types::{Clock, Form, View};

/// How many clocks can be numbered.
const MOST_CLOCKS: u64 = 1 << 32;

/// Whether no mode has a generated clock, each clock has its wave, and the clocks can be numbered.
pub fn are_plain(modes: &List<View>) -> bool
    ensures { IsTrue result ↔ ArePlain modes.now }
{
    let mut left = MOST_CLOCKS;
    for view in modes.as_slice() {
        let clocks = view.mode.clocks.len();
        if view.waves.len() != clocks || !are_primary(&view.mode.clocks) {
            return false;
        }
        if left < clocks as u64 {
            return false;
        }
        left -= clocks as u64;
    }
    true
}

/// Whether none of the clocks is generated.
fn are_primary(clocks: &List<Clock>) -> bool
    ensures { IsTrue result ↔ ArePrimary clocks.now }
{
    for clock in clocks.as_slice() {
        if !is_primary(clock) {
            return false;
        }
    }
    true
}

/// Whether the clock is not generated.
fn is_primary(clock: &Clock) -> bool
    ensures { IsTrue result ↔ IsPrimary clock.now.form }
{
    match clock.form {
        Form::Primary { .. } => true,
        Form::Generated { .. } => false,
    }
}
