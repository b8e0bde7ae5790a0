//! Each public call, by the types of its arguments and of its answer, from the crate that lists it; and what some of
//! them give, worked out by hand.

ghost use Rattle.std.specs.Prelude.{◌≡◌, ◌≤◌, ◌<◌, true, length, IsTrue};
ghost use Rattle.std.specs.Int.{bit_at};
ghost use Rattle.std.specs.Str.{IsCharBoundary};
ghost use Rattle.sdc_base.specs.Time.{IsUnit};
ghost use Rattle.function_model.specs.FunctionValue.{pins_are_below};
ghost use Rattle.merge_model.specs.PlainViews.{ArePlain};
ghost use Rattle.mode_model.specs.PrintedFile.{IsPrintable};
ghost use Rattle.timing_model.specs.Relation.{IsEdgeOf};

use bool_lanes::{Known, Table, parse};
use clock_map::{ClockMap, map_clocks};
use clock_tree::{Relation, relation};
use flat_design::empty;
use lib_cells::{Library, read_lib};
use pin_types::Expr;
use sdc_base::{
    At, Channel, Fixed, Inputs, List, NoMemory, NumberError, Outputs, ReadStop, Refusal, Stop,
    Text, read_all, time_text, write_all,
};
use sdc_cli::{Status, run};
use sdc_print::print;
use source_types::{Kind, LibKind, TclKind, VerilogKind};
use std::alloc::Global;
use std::process::Abort;
use std::test::Fail;
use tcl_eval::{Commands, eval};
use tcl_words::{Command, Next, list_items, next_command, split};
use timing_types::{Design, Mode, View};
use verilog_net::{Module, read_verilog};

// ---- `sdc_base`

fn read_number(text: &str) -> Result<Fixed, NumberError> {
    Fixed::read(text)
}

fn sum(one: Fixed, other: Fixed) -> Result<Fixed, NumberError> {
    one.add(other)
}

fn difference(one: Fixed, other: Fixed) -> Result<Fixed, NumberError> {
    one.sub(other)
}

fn product(one: Fixed, other: Fixed) -> Result<Fixed, NumberError> {
    one.mul(other)
}

fn quotient(one: Fixed, other: Fixed) -> Result<Fixed, NumberError> {
    one.div(other)
}

fn rest(one: Fixed, other: Fixed) -> Result<Fixed, NumberError>
    requires dividend { IsTrue one.whole }
    requires divisor { IsTrue other.whole }
{
    one.rem(other)
}

fn time_of(number: Fixed, unit: i64) -> Result<i64, NumberError>
    requires { IsUnit unit }
{
    number.to_time(unit)
}

fn number_text(alloc: Global, number: Fixed) -> Result<Text, NoMemory> {
    number.text(alloc)
}

fn text_of_time(alloc: Global, fs: i64, unit: i64) -> Result<Text, NoMemory>
    requires { IsUnit unit }
{
    time_text(alloc, fs, unit)
}

fn read_whole<I: Inputs>(alloc: Global, inputs: &mut I, name: &str) -> Result<List<u8>, ReadStop> {
    read_all(alloc, inputs, name)
}

fn write_whole<O: Outputs>(outputs: &mut O, channel: Channel, bytes: &[u8]) -> Result<(), Refusal> {
    write_all(outputs, channel, bytes)
}

// ---- `tcl_words`, `tcl_eval`

fn first_command(
    alloc: Global,
    text: &str,
    from: usize,
    line: u32,
) -> Result<Option<Next>, Stop<At<TclKind>>>
    requires within { from ≤ length text.now }
    requires boundary { IsCharBoundary text.now from }
{
    next_command(alloc, text, from, line)
}

fn all_commands(alloc: Global, text: &str) -> Result<List<Command>, Stop<At<TclKind>>> {
    split(alloc, text)
}

fn items(alloc: Global, text: &str) -> Result<List<Text>, Stop<TclKind>> {
    list_items(alloc, text)
}

fn run_script<H: Commands>(
    alloc: Global,
    script: &str,
    host: &mut H,
) -> Result<(), Stop<At<Kind>>> {
    eval(alloc, script, host)
}

// ---- `bool_lanes`, `lib_cells`, `verilog_net`, `flat_design`

fn function(alloc: Global, text: &str, names: &List<Text>) -> Result<Option<Expr>, Stop<LibKind>>
    requires { length names.now ≤ 60001 }
{
    parse(alloc, text, names)
}

fn table(expr: &Expr, inputs: u8) -> Table
    requires few { inputs ≤ 10 }
    requires below { pins_are_below inputs expr.now ≡ true }
{
    Table::of(expr, inputs)
}

fn forced(table: &Table, known: &Known) -> Option<bool> {
    table.forced(known)
}

fn depends(table: &Table, pin: u8, known: &Known) -> bool
    requires is_input { pin < table.now.inputs }
    requires is_open { bit_at known.now.mask pin ≡ 0 }
{
    table.depends(pin, known)
}

fn library(alloc: Global, bytes: &[u8]) -> Result<Library, Stop<At<LibKind>>> {
    read_lib(alloc, bytes)
}

fn modules(alloc: Global, bytes: &[u8]) -> Result<List<Module>, Stop<At<VerilogKind>>> {
    read_verilog(alloc, bytes)
}

fn no_design(alloc: Global) -> Result<Design, NoMemory> {
    empty(alloc)
}

// ---- `clock_tree`, `clock_map`, `sdc_print`, `sdc_cli`

fn related(a: i64, p: i64, b: i64, q: i64) -> Relation
    requires launch { IsEdgeOf a p }
    requires capture { IsEdgeOf b q }
{
    relation(a, p, b, q)
}

fn clocks(alloc: Global, modes: &List<View>) -> Result<ClockMap, NoMemory>
    requires { ArePlain modes.now }
{
    map_clocks(alloc, modes)
}

fn printed(alloc: Global, design: &Design, mode: &Mode) -> Result<List<u8>, NoMemory>
    requires { IsPrintable design.now mode.now }
{
    print(alloc, design, mode)
}

fn run_words<I: Inputs, O: Outputs>(
    alloc: Global,
    words: &[String],
    inputs: &mut I,
    outputs: &mut O,
) -> Status {
    run(alloc, words, inputs, outputs)
}

// ---- what they give

/// The number of items of a list, or none where it is no list.
fn items_in(alloc: Global, text: &str) -> Result<Option<usize>, NoMemory> {
    match items(alloc, text) {
        Ok(items) => Ok(Some(items.len())),
        Err(Stop::Refused(_)) => Ok(None),
        Err(Stop::NoMemory) => Err(NoMemory),
    }
}

/// The number of commands in a text, or none where one cannot be read.
fn commands_in(alloc: Global, text: &str) -> Result<Option<usize>, NoMemory> {
    match all_commands(alloc, text) {
        Ok(commands) => Ok(Some(commands.len())),
        Err(Stop::Refused(_)) => Ok(None),
        Err(Stop::NoMemory) => Err(NoMemory),
    }
}

/// The number of modules of a netlist, or none where it is none.
fn modules_in(alloc: Global, bytes: &[u8]) -> Result<Option<usize>, NoMemory> {
    match modules(alloc, bytes) {
        Ok(modules) => Ok(Some(modules.len())),
        Err(Stop::Refused(_)) => Ok(None),
        Err(Stop::NoMemory) => Err(NoMemory),
    }
}

#[test]
fn public_calls_answer(rt: HostRuntime) -> Result<(), Fail> {
    let alloc = rt.alloc();
    let between = related(0, 10, 0, 15);
    assert!(rt; between.setup == 5 && between.hold == 0);
    assert!(rt; items_in(alloc, "{a b} c")? == Some(2));
    assert!(rt; commands_in(alloc, "set a 1; set b 2 ;# two")? == Some(2));
    assert!(rt; commands_in(alloc, "set a {")? == None);
    assert!(rt; modules_in(alloc, b"module m (a); input a; endmodule")? == Some(1));
    Ok(())
}
