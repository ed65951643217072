// The numbers of ins and del.
ghost use Rattle.std.specs.Prelude.{◌≡◌};
ghost use Rattle.places.specs.Marks.{mark_of, stamp_of, is_ended};

/// The number in ins or del of a change that has no stamp yet.
pub const PENDING: u32 = 4_294_967_295;

/// What a number in ins or del says. In del, 0 is not ended; any other number that is not pending is a stamp.
#[derive(Clone, Copy, PartialEq, Eq, Debug)]
pub enum Mark {
    NotEnded,
    Pending,
    Stamp(u32),
}

impl From<u32> for Mark {
    ghost from_gives = { λ n m. m ≡ mark_of n };

    fn from(number: u32) -> Mark {
        match number {
            0 => Mark::NotEnded,
            PENDING => Mark::Pending,
            n => Mark::Stamp(n),
        }
    }
}

impl Mark {
    /// The stamp, where there is one.
    pub fn stamp(self) -> Option<u32>
        ensures { result ≡ stamp_of self }
    {
        match self {
            Mark::NotEnded | Mark::Pending => None,
            Mark::Stamp(n) => Some(n),
        }
    }

    /// Of a del: whether the row has ended, with a stamp or pending.
    pub fn is_ended(self) -> bool
        ensures { result ≡ is_ended self }
    {
        self != Mark::NotEnded
    }
}
