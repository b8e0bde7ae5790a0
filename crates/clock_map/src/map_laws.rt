//! What is true of every clock map and of every list of exclusive pairs, whoever found them.

ghost use Rattle.std.specs.Prelude.{ℕ, List};
ghost use Rattle.timing_types.specs.declared.views.View.{View};
ghost use Rattle.timing_types.specs.declared.views.ClockMap.{ClockMap};
ghost use Rattle.merge_model.specs.ClockIdentity.{IsClockMap};
ghost use Rattle.merge_model.specs.PlainViews.{ModesArePrimary, HaveWaves};
ghost use Rattle.merge_model.specs.Exclusive.{HaveEachOnce};
ghost use Rattle.clock_map.specs.MapFacts.{SharesEqualModes, ComesFromModes, HasDistinctNames, HaveOneMap, HaveOneListOfPairs};

/// No two clocks of one mode are one merged clock.
pub fn clocks_of_a_mode_are_distinct()
    ensures { (views : List View) (map : ClockMap)
        → HaveWaves views → IsClockMap views map → HaveEachOnce map.maps }
{}

/// Modes with the same clocks share them all.
pub fn equal_modes_share_clocks()
    ensures { (views : List View) (map : ClockMap)
        → ModesArePrimary views → HaveWaves views → IsClockMap views map → SharesEqualModes views map }
{}

/// Each merged clock is some mode's clock.
pub fn merged_clocks_come_from_modes()
    ensures { (views : List View) (map : ClockMap) → IsClockMap views map → ComesFromModes map }
{}

/// No two merged clocks have one name.
pub fn merged_names_are_distinct()
    ensures { (views : List View) (map : ClockMap) → IsClockMap views map → HasDistinctNames map }
{}

/// Modes without generated clocks have one clock map.
pub fn modes_have_one_map()
    ensures { (views : List View) → ModesArePrimary views → HaveOneMap views }
{}

/// Merged clocks have one list of exclusive pairs.
pub fn merged_clocks_have_one_list_of_pairs()
    ensures { (views : List View) (maps : List (List ℕ)) (count : ℕ)
        → HaveOneListOfPairs views maps count }
{}
