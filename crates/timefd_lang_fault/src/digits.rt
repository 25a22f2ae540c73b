//! Numbers in decimal, written without taking memory.

ghost use Rattle.std.specs.Prelude.{◌≡◌, ◌≤◌, length, drop};
ghost use Rattle.std.specs.Fmt.{decimal};

// `usize::MAX` has this many digits.
const MAX_LEN: usize = 20;

/// Room for the decimal digits of any number.
#[derive(Clone, Copy)]
pub struct Digits {
    bytes: [u8; MAX_LEN],
}

impl Digits {
    /// Room that holds no number yet.
    pub fn new() -> Digits {
        Digits {
            bytes: [0; MAX_LEN],
        }
    }

    /// Writes the number over what was there, and returns its text.
    pub fn format(&mut self, number: usize) -> &str
        ensures text { result.now ≡ decimal number }
        ensures short { length result.now ≤ 20 }
    {
        let start = write_digits(number, &mut self.bytes);
        std::str::from_utf8(&self.bytes[start..]).unwrap()
    }
}

// Writes the digits at the end of the buffer, and returns the index where they start.
fn write_digits(number: usize, bytes: &mut [u8; MAX_LEN]) -> usize
    ensures within { result ≤ 20 }
    ensures written { drop result bytes.new ≡ decimal number }
{
    let mut left = number;
    let mut start = MAX_LEN - 1;
    while left >= 10 {
        bytes[start] = b'0' + (left % 10) as u8;
        left /= 10;
        start -= 1;
    }
    bytes[start] = b'0' + left as u8;
    start
}
