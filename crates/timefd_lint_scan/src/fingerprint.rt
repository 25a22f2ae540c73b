//! Numbers by which names are found.

ghost use Rattle.std.specs.Prelude.{◌≡◌};
ghost use Rattle.timefd_lint_scan.specs.Layouts as spec;

fn with_byte(number: u64, byte: u8) -> u64
    ensures { result ≡ spec.with_byte number byte }
{
    number
        .wrapping_mul(1_099_511_628_211)
        .wrapping_add(u64::from(byte))
}

/// A number for a text. Equal texts have the same one, and hardly any two others do.
pub fn fingerprint(text: &[u8]) -> u64
    ensures { result ≡ spec.fingerprint text.now }
{
    let mut number: u64 = 0;
    let mut rest = text;
    'bytes: while let [byte, after @ ..] = rest {
        number = with_byte(number, *byte);
        rest = after;
    }
    number
}
