// How a call ends, and the byte of each answer.
ghost use Rattle.std.specs.Prelude.{◌≡◌};
ghost use Rattle.codes.specs.Codes.{answer_code};

/// How a call ends. `u8::from` gives its byte, 0x10 to 0x41.
#[derive(Clone, Copy, PartialEq, Eq, Debug)]
pub enum Answer {
    VertexAdded = 0x10,
    VertexAlready = 0x11,
    VertexRemoved = 0x12,
    VertexAbsent = 0x13,
    VertexPresent = 0x14,
    EdgeAdded = 0x20,
    EdgeAlready = 0x21,
    EdgeRemoved = 0x22,
    EdgeAbsent = 0x23,
    EdgePresent = 0x24,
    SnapshotTaken = 0x30,
    ReachTaken = 0x31,
    RowsSpent = 0x40,
    ClockSpent = 0x41,
}

impl From<Answer> for u8 {
    ghost from_gives = { λ from made. made ≡ answer_code from };

    fn from(answer: Answer) -> u8 {
        answer as u8
    }
}
