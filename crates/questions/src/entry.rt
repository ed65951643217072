// The entry of a key in an answer, for C, which has no option.
ghost use Rattle.questions.specs.Entries.{GivesEntry};

/// The mark 1 and the best value of the walks to the key, or 0 and 0 where there is no walk.
#[derive(Clone, Copy, PartialEq, Eq, Debug)]
#[repr(C)]
pub struct Entry {
    /// 1 where a walk reaches the key, else 0.
    pub mark: u8,
    /// The best value, or 0.
    pub value: u32,
}

impl From<Option<u32>> for Entry {
    ghost from_gives = { GivesEntry };

    fn from(value: Option<u32>) -> Entry {
        match value {
            Some(value) => Entry { mark: 1, value },
            None => Entry { mark: 0, value: 0 },
        }
    }
}
