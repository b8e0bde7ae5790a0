//! Inputs of a function that are known.

ghost use Rattle.std.specs.Prelude.{◌≡◌, ◌<◌, ◌↔◌, IsTrue};
ghost use Rattle.function_model.specs.FunctionValue.{Agrees, AgreesBelow};
ghost use Rattle.std.specs.Int.{bit_at};

/// What is known of at most 10 inputs: bit i of `mask` says whether input i is known, and bit i of `value` is
/// then its value. The other bits of `value` say nothing.
#[derive(Clone, Copy)]
pub struct Known {
    pub mask: u16,
    pub value: u16,
}

/// A bit of a number, counted from the lowest.
pub(crate) fn bit(number: u16, place: u8) -> u16
    requires { place < 16 }
    ensures { result ≡ bit_at number place }
{
    (number >> place) & 1
}

impl Known {
    /// Whether the value that a completion gives a pin is the known one, if it is known.
    fn agrees(&self, completion: u16, pin: u8) -> bool
        requires { pin < 16 }
        ensures { IsTrue result ↔ Agrees self.now.mask self.now.value completion pin }
    {
        bit(self.mask, pin) != 1 || bit(completion, pin) == bit(self.value, pin)
    }

    /// Whether the values that a completion gives the inputs are the known ones.
    pub(crate) fn allows(&self, inputs: u8, completion: u16) -> bool
        requires { inputs < 16 }
        ensures { IsTrue result ↔ AgreesBelow self.now.mask self.now.value completion inputs }
    {
        for pin in 0..inputs {
            if !self.agrees(completion, pin) {
                return false;
            }
        }
        true
    }
}
