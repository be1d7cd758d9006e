// Why a call is refused.
ghost use Rattle.std.specs.Prelude.{◌≡◌};
ghost use Rattle.steps.specs.Numbers.{number};

// One case for each reason; docs/RULES.md says when each is given.
#[derive(Clone, Copy, PartialEq, Eq, Debug)]
pub enum Refusal {
    NoSuchTarget,
    UnknownJoin,
    MinutesOutOfRange,
    FeeTooHigh,
    SheetFull,
    NoSuchStep,
    BenchesOutOfRange,
    NoValueKept,
    NoOpenWay,
    TableTooShort,
    FileTooLong,
    RecordCutShort,
    UnknownKind,
    RecordOutOfPlace,
    WrongBodyLength,
    TooManySteps,
    BadField,
    NoEndRecord,
    BufferTooShort,
}

// The number by which users know the reason. By `match` and not by numbers of the cases: a wrong number is then refused by the
// contract.
impl From<Refusal> for u8 {
    ghost from_gives = { λ refusal n. n ≡ number refusal };

    fn from(refusal: Refusal) -> u8 {
        match refusal {
            Refusal::NoSuchTarget => 11,
            Refusal::UnknownJoin => 12,
            Refusal::MinutesOutOfRange => 13,
            Refusal::FeeTooHigh => 14,
            Refusal::SheetFull => 15,
            Refusal::NoSuchStep => 21,
            Refusal::BenchesOutOfRange => 22,
            Refusal::NoValueKept => 23,
            Refusal::NoOpenWay => 31,
            Refusal::TableTooShort => 41,
            Refusal::FileTooLong => 51,
            Refusal::RecordCutShort => 52,
            Refusal::UnknownKind => 53,
            Refusal::RecordOutOfPlace => 54,
            Refusal::WrongBodyLength => 55,
            Refusal::TooManySteps => 56,
            Refusal::BadField => 57,
            Refusal::NoEndRecord => 58,
            Refusal::BufferTooShort => 59,
        }
    }
}
