//! The steps of texts, and texts that are no expressions.

use crate::expressions::parsing::parse_expression;
use crate::tests::show_text;
use sdc_base::NoMemory;
use std::alloc::Global;
use std::test::Fail;

#[test]
fn operators_by_their_binding(rt: HostRuntime) -> Result<(), Fail> {
    for (text, wanted) in [
        ("$a || $b && $c", "$a Or? $b And? $c And Or"),
        ("$a && $b || $c", "$a And? $b And Or? $c Or"),
        ("$a && $b == $c", "$a And? $b $c Equal And"),
        ("$a != $b < $c", "$a $b $c Less NotEqual"),
        ("$a eq $b <= $c", "$a $b $c LessEqual TextEqual"),
        ("$a > $b + $c", "$a $b $c Add Greater"),
        ("$a - $b * $c", "$a $b $c Multiply Subtract"),
        ("-$a % $b", "$a Minus $b Remainder"),
        ("!$a == 0", "$a Not 0 Equal"),
        ("- + ! $a", "$a Not Plus Minus"),
        // to the left
        ("2 - 1 - 1", "2 1 Subtract 1 Subtract"),
        ("$a / $b * $c % $d", "$a $b Divide $c Multiply $d Remainder"),
        ("$a < $b >= $c", "$a $b Less $c GreaterEqual"),
        ("$a == $b ne $c", "$a $b Equal $c TextNotEqual"),
        ("$a || $b || $c", "$a Or? $b Or Or? $c Or"),
        // parentheses
        ("2 - (1 - 1)", "2 1 1 Subtract Subtract"),
        ("($a + [b c]) * $d", "$a@1 [b c]@1 Add $d Multiply"),
        ("(($a))", "$a@2"),
        ("-($a || ($b))", "$a@1 Or? $b@2 Or Minus"),
    ] {
        let shown = show_text(rt.alloc(), text)?;
        assert_eq!(rt; (text, shown.as_str()), (text, wanted));
    }
    Ok(())
}

#[test]
fn operands_and_blanks(rt: HostRuntime) -> Result<(), Fail> {
    for (text, wanted) in [
        ("1.50", "1.5"),
        ("007", "7"),
        ("5.", "5.0"),
        (".5", "0.5"),
        ("1e+2", "100.0"),
        ("25E-1", "2.5"),
        ("1e30", "out"),
        ("5--3", "5 3 Minus Subtract"),
        ("1eq1", "1 1 TextEqual"),
        ("1e1ne1", "10.0 1 TextNotEqual"),
        ("\"a\"eq{b}", "'a' 'b' TextEqual"),
        ("\"\" eq {}", "'' '' TextEqual"),
        ("\"a $b [c]\\n\"", "'a '$b' '[c]'\n'"),
        ("{a $b [c]\\n}", "'a $b [c]\\n'"),
        ("${a b}", "$a b"),
        ("[3] eq [*]", "[3] [*] TextEqual"),
        ("[x {]} \"]\" [y]]", "[x {]} \"]\" [y]]"),
        ("\n1\t+\r\n2 ", "1 2 Add"),
        ("1 \\\n + \\\r\n\t2", "1 2 Add"),
    ] {
        let shown = show_text(rt.alloc(), text)?;
        assert_eq!(rt; (text, shown.as_str()), (text, wanted));
    }
    Ok(())
}

#[test]
fn operands_and_operators_that_do_not_fit(rt: HostRuntime) -> Result<(), Fail> {
    for text in [
        "",
        " ",
        "\n",
        "1 +",
        "* 2",
        "1 2",
        "$a$b",
        "\"a\"\"b\"",
        "{a}{b}",
        "(1",
        "1)",
        "()",
        "(1))",
        "1 (2)",
        "!",
        "1 !",
        "-",
        "1 - ",
        "1 ! 2",
        "1.2.3",
        "1..2",
        "1e5.5",
        "eq",
        "1 != = 2",
        "2 ** 3",
        "1 << 2",
        "1 <> 2",
    ] {
        let shown = show_text(rt.alloc(), text)?;
        assert_eq!(rt; (text, shown.as_str()), (text, "BadExpr"));
    }
    Ok(())
}

static WITHOUT_A_TOKEN: [&str; 41] = [
    "1e",
    "1e+",
    ".",
    "1e31",
    "1e-31",
    "1234567890123456789012345678901",
    "$",
    "$ + 1",
    "$(a)",
    "$a(1)",
    "${a",
    "[a",
    "[a {]}",
    "\"a",
    "\"a\\\"",
    "{a",
    "{a\\}",
    "\"$a(1)\"",
    "\"[a\"",
    "\"${a\"",
    "x + 1",
    "true",
    "a",
    "e",
    "n",
    "1 e 2",
    "1 & 2",
    "1 | 2",
    "1 = 2",
    "1 === 2",
    "~1",
    "1 ^ 2",
    "1 ? 2 : 3",
    "1;2",
    "1 # 2",
    "1 \\ 2",
    "\\",
    "1,2",
    "\u{a0}1",
    "\u{ff11}",
    "1 || x",
];

#[test]
fn texts_without_a_token_somewhere(rt: HostRuntime) -> Result<(), Fail> {
    for text in WITHOUT_A_TOKEN.iter() {
        let shown = show_text(rt.alloc(), text)?;
        assert_eq!(rt; (text, shown.as_str()), (text, "BadExpr"));
    }
    Ok(())
}

/// A text so many times over.
fn times(alloc: Global, text: &str, count: u32) -> Result<String, NoMemory> {
    let mut all = String::new(alloc);
    for _time in 0..count {
        all.push_str(text)?;
    }
    Ok(all)
}

#[test]
fn long_and_deep_texts(rt: HostRuntime) -> Result<(), Fail> {
    let mut deep = times(rt.alloc(), "(", 50_000)?;
    deep.push_str("1")?;
    let open = show_text(rt.alloc(), deep.as_str())?;
    assert_eq!(rt; open.as_str(), "BadExpr");
    let close = times(rt.alloc(), ")", 50_000)?;
    deep.push_str(close.as_str())?;
    let expression = parse_expression(rt.alloc(), deep.as_str())?;
    assert_eq!(rt; (expression.levels, expression.steps.len()), (50_000, 1));

    let mut long = times(rt.alloc(), "1+-", 50_000)?;
    long.push_str("1")?;
    let expression = parse_expression(rt.alloc(), long.as_str())?;
    assert_eq!(rt; (expression.levels, expression.steps.len()), (0, 150_001));
    Ok(())
}
