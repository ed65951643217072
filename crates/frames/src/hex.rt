// Bytes and their hexadecimal digits.
ghost use Rattle.std.specs.Prelude.{◌≡◌, ◌<◌, [], ◌∷◌};
ghost use Rattle.std.specs.Option.{unwrap_or};
ghost use Rattle.frames.specs.Hex.{digit_of, byte_of, capital, hex_of};

// The value of each character as a digit, of either case.
const VALUES: [u16; 256] = [
    256, 256, 256, 256, 256, 256, 256, 256, 256, 256, 256, 256, 256, 256, 256, 256, 256, 256, 256,
    256, 256, 256, 256, 256, 256, 256, 256, 256, 256, 256, 256, 256, 256, 256, 256, 256, 256, 256,
    256, 256, 256, 256, 256, 256, 256, 256, 256, 256, 0, 1, 2, 3, 4, 5, 6, 7, 8, 9, 256, 256, 256,
    256, 256, 256, 256, 10, 11, 12, 13, 14, 15, 256, 256, 256, 256, 256, 256, 256, 256, 256, 256,
    256, 256, 256, 256, 256, 256, 256, 256, 256, 256, 256, 256, 256, 256, 256, 256, 10, 11, 12, 13,
    14, 15, 256, 256, 256, 256, 256, 256, 256, 256, 256, 256, 256, 256, 256, 256, 256, 256, 256,
    256, 256, 256, 256, 256, 256, 256, 256, 256, 256, 256, 256, 256, 256, 256, 256, 256, 256, 256,
    256, 256, 256, 256, 256, 256, 256, 256, 256, 256, 256, 256, 256, 256, 256, 256, 256, 256, 256,
    256, 256, 256, 256, 256, 256, 256, 256, 256, 256, 256, 256, 256, 256, 256, 256, 256, 256, 256,
    256, 256, 256, 256, 256, 256, 256, 256, 256, 256, 256, 256, 256, 256, 256, 256, 256, 256, 256,
    256, 256, 256, 256, 256, 256, 256, 256, 256, 256, 256, 256, 256, 256, 256, 256, 256, 256, 256,
    256, 256, 256, 256, 256, 256, 256, 256, 256, 256, 256, 256, 256, 256, 256, 256, 256, 256, 256,
    256, 256, 256, 256, 256, 256, 256, 256, 256, 256, 256, 256, 256, 256, 256, 256, 256, 256, 256,
    256, 256, 256,
];

// The value of a digit; 256 where it is none. By a table, since a branch on each digit costs time.
fn value(c: u8) -> u16
    ensures { result ≡ unwrap_or (digit_of c) 256 }
{
    VALUES[usize::from(c)]
}

/// The byte of two hexadecimal digits of either case, the high one first; none where one is no digit.
// A character that is no digit makes more than a byte.
pub fn byte(high: u8, low: u8) -> Option<u8>
    ensures { result ≡ byte_of (digit_of high) (digit_of low) }
{
    u8::try_from(16 * value(high) + value(low)).ok()
}

// The digits, each at its value.
const CAPITALS: [u8; 16] = *b"0123456789ABCDEF";

// The capital of a digit's value.
fn capital_of(d: u8) -> u8
    requires { d < 16 }
    ensures { result ≡ capital d }
{
    CAPITALS[usize::from(d)]
}

/// The two digits of a byte in capitals, the high one first.
pub fn digits(b: u8) -> [u8; 2]
    ensures { result ≡ hex_of (b ∷ []) }
{
    [capital_of(b / 16), capital_of(b % 16)]
}
