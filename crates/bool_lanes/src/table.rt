//! Truth tables.

ghost use Rattle.std.specs.Prelude.{◌≡◌, ◌≢◌, ◌+◌, ◌≤◌, ◌<◌, ◌^◌, ◌↔◌, ℕ, Bool, Some, IsTrue, true};
ghost use Rattle.std.specs.Int.{bit_at};
ghost use Rattle.bool_lanes.specs.Forced.{only_value};
ghost use Rattle.function_model.specs.FunctionValue.{pins_are_below, truth, value_of, pin_value, Changes, Completes, Forces, IsTableOf, Takes, TakesAt, ChangesAt, differs};

use crate::known::{Known, bit};
use pin_types::Expr;
use std::marker::Model;

/// The most inputs of a table.
const MOST_INPUTS: u8 = 10;

/// The completions of the most inputs.
const MOST_COMPLETIONS: usize = 1024;

/// The truth table of a function of at most 10 inputs: the value of each completion, that is of each choice of
/// values for all inputs. Bit i of a completion's number is the value of input i.
#[derive(Drop)]
pub struct Table {
    inputs: u8,
    values: [bool; MOST_COMPLETIONS],
}

impl Model for Table {
    ghost use Rattle.std.specs.Prelude.{◌≤◌, ◌^◌, take};
    ghost use Rattle.bool_lanes.specs.Forced.{only_value};
    ghost use Rattle.function_model.specs.FunctionValue.{Truths};

    ghost Value = { Truths };

    ghost view = { λ t. record { inputs = t.inputs; values = take (2 ^ t.inputs) t.values } };

    ghost invariant = { λ t. t.inputs ≤ 10 };
}

/// The value of an expression under a completion.
fn value_under(expr: &Expr, inputs: u8, completion: u16) -> bool
    requires few { inputs ≤ 10 }
    requires below { pins_are_below inputs expr.now ≡ true }
    ensures { result ≡ value_of (pin_value completion) expr.now }
{
    match expr {
        Expr::Zero => false,
        Expr::One => true,
        Expr::Pin(pin) => is_set(completion, *pin),
        Expr::Not(inner) => !value_under(inner.get(), inputs, completion),
        Expr::And(left, right) => {
            let left = value_under(left.get(), inputs, completion);
            let right = value_under(right.get(), inputs, completion);
            left && right
        }
        Expr::Or(left, right) => {
            let left = value_under(left.get(), inputs, completion);
            let right = value_under(right.get(), inputs, completion);
            left || right
        }
        Expr::Xor(left, right) => {
            let left = value_under(left.get(), inputs, completion);
            let right = value_under(right.get(), inputs, completion);
            differ(left, right)
        }
    }
}

/// Whether a completion gives a pin the value 1.
fn is_set(completion: u16, pin: u16) -> bool
    requires { pin < 16 }
    ensures { result ≡ pin_value completion pin }
{
    (completion >> pin) & 1 == 1
}

/// Whether exactly one of two values is true.
fn differ(left: bool, right: bool) -> bool
    ensures { result ≡ differs left right }
{
    if left { !right } else { right }
}

/// The one value that is taken, where it is one.
fn only_value(zero: bool, one: bool) -> Option<bool>
    ensures { result ≡ only_value zero one }
{
    match (zero, one) {
        (false, true) => Some(true),
        (true, false) => Some(false),
        (false, false) | (true, true) => None,
    }
}

/// Whether two values are one.
fn same(left: bool, right: bool) -> bool
    ensures { IsTrue result ↔ left ≡ right }
{
    left == right
}

/// The number that has one bit alone.
fn bit_of(place: u8) -> u16
    requires { place < 16 }
    ensures { result ≡ 2 ^ place }
{
    1 << place
}

/// The number of completions of so many inputs.
fn completions(inputs: u8) -> u16
    requires { inputs ≤ 10 }
    ensures { result ≡ 2 ^ inputs }
{
    bit_of(inputs)
}

impl Table {
    /// The truth table of an expression over so many inputs, at most 10, among which is each pin in it (Liberty,
    /// `function`). It takes no memory.
    pub fn of(expr: &Expr, inputs: u8) -> Table
        requires few { inputs ≤ 10 }
        requires below { pins_are_below inputs expr.now ≡ true }
        ensures { IsTableOf result expr.now inputs }
    {
        let mut values = [false; MOST_COMPLETIONS];
        for completion in 0..completions(inputs) {
            values[usize::from(completion)] = value_under(expr, inputs, completion);
        }
        Table { inputs, values }
    }

    /// The value of a completion.
    fn value_of(&self, completion: u16) -> bool
        requires { completion < 2 ^ self.now.inputs }
        ensures { result ≡ truth self.now completion }
    {
        self.values[usize::from(completion)]
    }

    /// Whether a completion is one of the known inputs and has a value.
    fn takes_at(&self, known: &Known, value: bool, completion: u16) -> bool
        requires { completion < 2 ^ self.now.inputs }
        ensures { IsTrue result ↔ TakesAt self.now known.now.mask known.now.value value completion }
    {
        known.allows(self.inputs, completion) && same(self.value_of(completion), value)
    }

    /// Whether some completion of the known inputs has a value.
    fn takes(&self, known: &Known, value: bool) -> bool
        ensures { IsTrue result ↔ Takes self.now known.now.mask known.now.value value }
    {
        for completion in 0..completions(self.inputs) {
            if self.takes_at(known, value, completion) {
                return true;
            }
        }
        false
    }

    /// The value that every completion of the known inputs has, where there is one (this project's own). It takes
    /// no memory.
    pub fn forced(&self, known: &Known) -> Option<bool>
        ensures { (v : Bool) → (result ≡ Some v) ↔ Forces self.now known.now.mask known.now.value v }
    {
        let zero = self.takes(known, false);
        let one = self.takes(known, true);
        only_value(zero, one)
    }

    /// Whether a completion is one of the known inputs, gives a pin the value 0, and has another value than with the
    /// pin at 1.
    fn changes_at(&self, pin: u8, known: &Known, completion: u16) -> bool
        requires is_input { pin < self.now.inputs }
        requires within { completion < 2 ^ self.now.inputs }
        ensures { IsTrue result ↔ ChangesAt self.now known.now.mask known.now.value pin completion }
    {
        if bit(completion, pin) != 0 || !known.allows(self.inputs, completion) {
            return false;
        }
        let with_pin = completion + bit_of(pin);
        !same(self.value_of(completion), self.value_of(with_pin))
    }

    /// Whether some completion of the known inputs changes its value with a pin, which is an input and not known
    /// (this project's own). It takes no memory.
    pub fn depends(&self, pin: u8, known: &Known) -> bool
        requires is_input { pin < self.now.inputs }
        requires is_open { bit_at known.now.mask pin ≡ 0 }
        ensures { IsTrue result ↔ Changes self.now known.now.mask known.now.value pin }
    {
        for completion in 0..completions(self.inputs) {
            if self.changes_at(pin, known, completion) {
                return true;
            }
        }
        false
    }
}
