//! Laws above the definitions of numbers and times, as contracts of functions that do nothing.

ghost use Rattle.std.specs.Prelude.{List, ℕ, ℤ};
ghost use Rattle.sdc_base.specs.ArithmeticLaws.{FlooredIsFloor, RoundedIsNearest, WholeProductIsExact, NumberTextReadsBack, NumberTextIsPlain};
ghost use Rattle.sdc_base.specs.Number.{Number};
ghost use Rattle.sdc_base.specs.NumberLaws.{ReadIsSpelled, SpelledIsRead, RangeIsExact, FormIsExact, TimeIsNearest, TimeRangeIsExact, TimeTextReadsBack, TimeTextIsPlain};

/// Reading is exact: what is read is what parts that fit spell, with their value to nearest, and a text is
/// refused as out of range, or for its form, exactly where the form of a number says so.
pub fn reading_is_exact()
    ensures read { (text : List ℕ) → ReadIsSpelled text }
    ensures spelled { (text : List ℕ) → SpelledIsRead text }
    ensures range { (text : List ℕ) → RangeIsExact text }
    ensures form { (text : List ℕ) → FormIsExact text }
{}

/// A number of units is the nearest time, ties away from zero, and out of range exactly above 10^16 fs.
pub fn times_are_nearest()
    ensures time { (n : Number) (unit : ℤ) → TimeIsNearest n unit }
    ensures range { (n : Number) (unit : ℤ) → TimeRangeIsExact n unit }
{}

/// The text of a time is digits with at most a minus and a point, and that of a time up to 10^16 fs is read back as
/// that time.
pub fn time_texts_read_back()
    ensures back { (fs unit : ℤ) → TimeTextReadsBack fs unit }
    ensures plain { (fs unit : ℤ) → TimeTextIsPlain fs unit }
{}

/// Rounding is right: what a quotient of whole numbers leaves is less than the divisor and has its sign,
/// other quotients and products are nearest, ties away from zero, and nothing is rounded of a product of
/// whole numbers.
pub fn arithmetic_is_rounded()
    ensures floor { (n d : ℤ) → FlooredIsFloor n d }
    ensures nearest { (n d : ℤ) → RoundedIsNearest n d }
    ensures exact { (a b : Number) → WholeProductIsExact a b }
{}

/// The text of a number is digits with at most a minus and a point, and is read back as that number.
pub fn number_texts_read_back()
    ensures back { (n : Number) → NumberTextReadsBack n }
    ensures plain { (n : Number) → NumberTextIsPlain n }
{}
