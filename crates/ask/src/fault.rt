// What is wrong with a line.
ghost use Rattle.std.specs.Prelude.{◌≡◌, Some};
ghost use Rattle.ask.specs.declared.fault.Fault.TheVariants.{Memory};
ghost use Rattle.ask.specs.Texts.{words, of_hex};

use codes::NO_EDGE;
use hex::FromHexError;
use std::alloc::{AllocError, AllocFailed};
use std::fmt;

/// What is wrong with a line; it prints in words.
#[derive(Clone, Copy, PartialEq, Eq, Debug)]
pub enum Fault {
    Memory,
    Size,
    Reply,
    Key,
    Edge,
    Weight,
    Start,
    Word,
}

impl From<AllocError> for Fault {
    ghost from_gives = { λ _ fault. fault ≡ Memory };

    fn from(_e: AllocError) -> Fault {
        Fault::Memory
    }
}

impl<T: Drop> From<AllocFailed<T>> for Fault {
    ghost from_gives = { λ _ fault. fault ≡ Memory };

    fn from(_e: AllocFailed<T>) -> Fault {
        Fault::Memory
    }
}

impl From<FromHexError> for Fault {
    ghost from_gives = { λ error fault. fault ≡ of_hex error };

    fn from(error: FromHexError) -> Fault {
        match error {
            FromHexError::OutOfMemory => Fault::Memory,
            _ => Fault::Reply,
        }
    }
}

impl fmt::Display for Fault {
    ghost output = { λ fault. Some (words fault) };

    fn fmt<W: fmt::Write>(&self, f: &mut fmt::Formatter<W>) -> fmt::Result {
        f.write_str(match self {
            Fault::Memory => "no memory is left",
            Fault::Size => "the first line is the number of keys, 1 to 64",
            Fault::Reply => "a page is 8400, two digits for each key and eight for each pair",
            Fault::Key => "a key is a number below the number of keys",
            Fault::Edge => "an edge is a key, a key and a weight",
            Fault::Weight => return write!(
                f,
                "a weight is a number up to 4294967295, and not {NO_EDGE}"
            ),
            Fault::Start => "a start is one key",
            Fault::Word => "a line begins with keys, edge or start",
        })
    }
}
