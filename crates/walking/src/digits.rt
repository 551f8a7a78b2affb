// The values of digits.
ghost use Rattle.walking.specs.Reading.{Values};

use super::texts::hex_digit;

// How many values a byte has.
const BYTES: usize = 256;

// The value of a byte that is no digit, above those of all digits. A number and no option: the table is looked at once a byte of input, and options
// would make it twice as long.
const NO_DIGIT: u8 = 16;

// The value of each byte as a lowercase hex digit. One look is then all that a byte takes.
#[derive(Drop)]
pub(crate) struct Digits {
    values: [u8; BYTES],
    ghost known: { Values 16 values },
}

impl Digits {
    ghost use Rattle.walking.specs.Reading.{ValueOf};

    pub(crate) fn new() -> Digits {
        let mut values = [NO_DIGIT; BYTES];
        for value in 0..NO_DIGIT {
            values[usize::from(hex_digit(value))] = value;
        }
        Digits { values }
    }

    pub(crate) fn value_of(&self, byte: u8) -> Option<u8>
        ensures { ValueOf byte result }
    {
        let value = self.values[usize::from(byte)];
        if value == NO_DIGIT { None } else { Some(value) }
    }
}
