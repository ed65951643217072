// The line that is being read, as far as it matters.
ghost use Rattle.std.specs.Prelude.{◌≡◌, ◌==◌, ◌∷◌, [], ◌++◌, length, take};

use std::marker::Model;

// The first 23 bytes of a line. The longest frame has 22 digits, so a longer line is no frame, whatever its other bytes are.
#[derive(Drop)]
pub(crate) struct Held {
    bytes: [u8; 23],
    len: usize,
}

impl Model for Held {
    ghost use Rattle.std.specs.Prelude.{ℕ, ◌≤◌, List, take};

    ghost Value = { List ℕ };

    ghost view = { λ h. take h.len h.bytes };

    ghost invariant = { λ h. h.len ≤ 23 };
}

impl Held {
    // No byte yet.
    pub(crate) fn new() -> Held
        ensures { result ≡ [] }
    {
        Held {
            bytes: [0; 23],
            len: 0,
        }
    }

    // One byte more, where there is room.
    pub(crate) fn push(&mut self, byte: u8)
        ensures { self.new ≡ take 23 (self.old ++ (byte ∷ [])) }
    {
        if self.len < 23 {
            self.bytes[self.len] = byte;
            self.len += 1;
        }
    }

    // Whether no more bytes are held.
    pub(crate) fn is_full(&self) -> bool
        ensures { result ≡ (length self.now == 23) }
    {
        self.len == 23
    }

    // The bytes.
    pub(crate) fn as_slice(&self) -> &[u8]
        ensures { result.now ≡ self.now }
    {
        &self.bytes[..self.len]
    }
}
