// Why a request was not carried out, and the byte of each refusal.
ghost use Rattle.std.specs.Prelude.{◌≡◌};
ghost use Rattle.codes.specs.Codes.{refusal_code};

/// Why a request was not carried out. `u8::from` gives its byte, 0xE1 to 0xED.
#[derive(Clone, Copy, PartialEq, Eq, Debug)]
pub enum Refusal {
    SizeOutside = 0xE1,
    TooFewCells = 0xE2,
    NoSuchWorker = 0xE3,
    WorkerBusy = 0xE4,
    NoSuchCall = 0xE5,
    KeyOutside = 0xE6,
    WeightOutside = 0xE7,
    WorkerIdle = 0xE8,
    PageOut = 0xE9,
    NoFinishedPage = 0xEA,
    WrongTicket = 0xEB,
    AreaTooSmall = 0xEC,
    NoFrame = 0xED,
}

impl From<Refusal> for u8 {
    ghost from_gives = { λ from made. made ≡ refusal_code from };

    fn from(refusal: Refusal) -> u8 {
        refusal as u8
    }
}
