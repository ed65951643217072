// What an opening asks for, and the sizes made of it.
ghost use Rattle.std.specs.Prelude.{◌≡◌};
ghost use Rattle.layout.specs.Limits.{numbers_of, sized_as};

use crate::sizes::Sizes;
use codes::Refusal;

/// The five sizes that an opening names, not yet within their limits.
#[derive(Clone, Copy, PartialEq, Eq, Debug)]
pub struct Opening {
    pub keys: u8,
    pub workers: u8,
    pub vrows: u16,
    pub erows: u16,
    pub top: u32,
}

impl TryFrom<Opening> for Sizes {
    type Error = Refusal;

    ghost try_from_gives = { λ opening made. numbers_of made ≡ sized_as opening };

    fn try_from(opening: Opening) -> Result<Sizes, Refusal> {
        Sizes::new(
            opening.keys as usize,
            opening.workers as usize,
            opening.vrows as usize,
            opening.erows as usize,
            opening.top,
        )
    }
}
