// Why a call is refused: the rows of docs/FORMAT.md's tables, each with its number.
ghost use Rattle.std.specs.Prelude.{◌≡◌};
ghost use Rattle.places.specs.Answered.{number_of, told};

// The first rule that is broken.
#[derive(Clone, Copy, PartialEq, Eq, Debug)]
pub enum Refusal {
    ShortSheet = 1,
    BadCount = 2,
    ReservedBits = 3,
    BadLength = 4,
    NoInterval = 5,
    BadCost = 6,
    BadBackup = 7,
    BadDeadline = 8,
    BadPriority = 9,
    BadFaultPriority = 10,
    ShortOutput = 11,
    BadPlace = 12,
    BadChoice = 13,
    OddLog = 14,
    StrangeBit = 15,
    EarlyRelease = 16,
    EarlyFault = 17,
    BadShare = 18,
    SharedProcessor = 19,
    BadStarts = 20,
    InsideAJob = 21,
    Held = 22,
    BadCores = 23,
    DifferentCounts = 24,
    BadRequest = 25,
    NoNumber = 30,
    TooLarge = 31,
    ExtraCell = 32,
    MissingCell = 33,
    NinthTask = 34,
    EmptyCell = 35,
    DecimalPoint = 36,
    MinusSign = 37,
    UnknownColumn = 38,
    RepeatedColumn = 39,
    MissingColumn = 40,
    LongName = 41,
    OpenQuotes = 42,
    LongLine = 43,
    RepeatedSetting = 44,
    UnevenScale = 45,
    ZeroScale = 46,
}

impl Refusal {
    // Its number, by which C, programs and documents name it.
    pub fn number(self) -> u8
        ensures { result ≡ number_of self }
    {
        self as u8
    }
}

// What an answer without a value is told as: the number of its refusal, or 0.
pub fn told(answer: Result<(), Refusal>) -> u8
    ensures { result ≡ told answer }
{
    match answer {
        Ok(()) => 0,
        Err(refusal) => refusal.number(),
    }
}
