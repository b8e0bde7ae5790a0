//! Tables of small functions, and of chains of ten inputs, with values computed by hand.

ghost use Rattle.std.specs.Prelude.{◌≡◌, ◌≤◌, ◌<◌, IfOk};
ghost use Rattle.std.specs.Int.{bit_at};
ghost use Rattle.function_model.specs.FunctionValue.{pins_are_below};

use bool_lanes::{Known, Names, Table, parse_prepared};
use pin_types::Expr;
use sdc_base::{List, NoMemory, Stop, Text};
use std::alloc::Global;
use std::process::Abort;
use std::test::Fail;

/// A bit of a number, counted from the lowest.
fn bit(number: u16, place: u8) -> u16
    requires { place < 16 }
    ensures { result ≡ bit_at number place }
{
    (number >> place) & 1
}

/// The names `A`, `B` and so on of ten inputs.
fn ten_names(alloc: Global) -> Result<List<Text>, NoMemory> {
    let mut names = List::new(alloc);
    for name in "A B C D E F G H I J".split(' ') {
        names.push(Text::from_str(alloc, name)?)?;
    }
    Ok(names)
}

/// The function of a text over ten inputs, or another one where it is none.
fn function_of(alloc: Global, text: &str) -> Result<Expr, NoMemory> {
    let names = ten_names(alloc)?;
    if names.len() > 10 {
        return Ok(Expr::Zero);
    }
    let names = Names::new(alloc, names)?;
    match parse_prepared(alloc, text, &names) {
        Ok(Some(expr)) => Ok(expr),
        Ok(None) | Err(Stop::Refused(_)) => Ok(Expr::Zero),
        Err(Stop::NoMemory) => Err(NoMemory),
    }
}

/// Whether every pin of an expression is below a number.
fn pins_are_below(inputs: u8, expr: &Expr) -> bool
    ensures { result ≡ pins_are_below inputs expr.now }
{
    match expr {
        Expr::Zero | Expr::One => true,
        Expr::Pin(pin) => *pin < u16::from(inputs),
        Expr::Not(inner) => pins_are_below(inputs, inner.get()),
        Expr::And(left, right) | Expr::Or(left, right) | Expr::Xor(left, right) => {
            let left = pins_are_below(inputs, left.get());
            let right = pins_are_below(inputs, right.get());
            left && right
        }
    }
}

/// The table of a text's function over so many inputs, at most ten.
fn table_of(rt: &impl Abort, alloc: Global, text: &str, inputs: u8) -> Result<Table, NoMemory>
    requires { inputs ≤ 10 }
    ensures { IfOk result (λ table. table.inputs ≡ inputs) }
{
    let expr = function_of(alloc, text)?;
    assert!(rt; pins_are_below(inputs, &expr));
    Ok(Table::of(&expr, inputs))
}

/// The values of a function's table in the order of its completions, as `0` and `1`.
fn show_table(rt: &impl Abort, alloc: Global, text: &str, inputs: u8) -> Result<String, NoMemory>
    requires { inputs ≤ 10 }
{
    let table = table_of(rt, alloc, text, inputs)?;
    let mut shown = String::new(alloc);
    for completion in 0..(1_u16 << inputs) {
        let known = Known {
            mask: (1 << inputs) - 1,
            value: completion,
        };
        shown.push_str(match table.forced(&known) {
            Some(false) => "0",
            Some(true) => "1",
            None => "?",
        })?;
    }
    Ok(shown)
}

static OF_TWO_INPUTS: [(&str, &str); 16] = [
    ("0", "0000"),
    ("!(A + B)", "1000"),
    ("A B'", "0100"),
    ("!B", "1100"),
    ("A' B", "0010"),
    ("!A", "1010"),
    ("A ^ B", "0110"),
    ("!(A B)", "1110"),
    ("A B", "0001"),
    ("!(A ^ B)", "1001"),
    ("A", "0101"),
    ("A + B'", "1101"),
    ("B", "0011"),
    ("A' + B", "1011"),
    ("A + B", "0111"),
    ("1", "1111"),
];

/// Sees that a function of two inputs has these values.
fn has_values(rt: &impl Abort, alloc: Global, text: &str, wanted: &str) -> Result<(), NoMemory> {
    let shown = show_table(rt, alloc, text, 2)?;
    assert!(rt; shown.as_str() == wanted, "{text}: {shown}");
    Ok(())
}

#[test]
fn functions_of_two_inputs(rt: HostRuntime) -> Result<(), Fail> {
    for (text, wanted) in OF_TWO_INPUTS.iter() {
        has_values(&rt, rt.alloc(), text, wanted)?;
    }
    Ok(())
}

#[test]
fn multiplexer_with_known_inputs(rt: HostRuntime) -> Result<(), Fail> {
    let table = table_of(&rt, rt.alloc(), "(A C') + (B C)", 3)?;
    let select_zero = Known { mask: 4, value: 0 };
    assert_eq!(rt; table.forced(&select_zero), None);
    assert!(rt; table.depends(0, &select_zero));
    assert!(rt; !table.depends(1, &select_zero));
    let both_one = Known { mask: 3, value: 3 };
    assert_eq!(rt; table.forced(&both_one), Some(true));
    assert!(rt; !table.depends(2, &both_one));
    // bits of inputs that there are not, and values that are not known, say nothing
    let more_bits = Known {
        mask: 0xfffb,
        value: 0xfff7,
    };
    assert_eq!(rt; table.forced(&more_bits), Some(true));
    Ok(())
}

#[test]
fn chains_of_ten_inputs(rt: HostRuntime) -> Result<(), Fail> {
    let all = 0x3ff;
    let nothing = Known { mask: 0, value: 0 };
    let and = table_of(&rt, rt.alloc(), "A B C D E F G H I J", 10)?;
    let or = table_of(&rt, rt.alloc(), "A+B+C+D+E+F+G+H+I+J", 10)?;
    let xor = table_of(&rt, rt.alloc(), "A^B^C^D^E^F^G^H^I^J", 10)?;
    for pin in 0..10_u8 {
        let others = all & !(1 << pin);
        let zero = Known {
            mask: 1 << pin,
            value: 0,
        };
        let one = Known {
            mask: 1 << pin,
            value: all,
        };
        let others_one = Known {
            mask: others,
            value: all,
        };
        assert_eq!(rt; and.forced(&zero), Some(false));
        assert_eq!(rt; and.forced(&one), None);
        assert_eq!(rt; or.forced(&zero), None);
        assert_eq!(rt; or.forced(&one), Some(true));
        assert_eq!(rt; xor.forced(&others_one), None);
        assert!(rt; bit(others, pin) == 0);
        assert!(rt; and.depends(pin, &nothing));
        assert!(rt; and.depends(pin, &others_one));
        assert!(rt; !or.depends(pin, &others_one));
        assert!(rt; xor.depends(pin, &others_one));
    }
    let parity = Known {
        mask: all,
        value: 0x155,
    };
    assert_eq!(rt; xor.forced(&parity), Some(true));
    Ok(())
}
