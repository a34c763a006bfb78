// The paper's words: scales, the counts that are kept apart by them, records as handed in, the refusals and the answers.
#![tactic(auto)]

ghost use Rattle.std.specs.Prelude.{◌≡◌};
ghost use Rattle.scales.specs.Meaning.{code_of, number_of, slip, slip_tai, slip_utc, slip_gps, slip_timed, spanned, spanned_as, record_of, marked_record, record_at, time_scale, time_count, refused_of};

mod spans;

use spans::{count_of, record_at, time_at};

#[derive(Clone, Copy, PartialEq, Eq)]
pub enum Scale {
    Tai,
    Utc,
    Gps,
}

impl Scale {
    // The scale as a number; two scales are the same where their codes are.
    pub fn code(self) -> u32
        ensures { result ≡ code_of self }
    {
        match self {
            Scale::Tai => 0,
            Scale::Utc => 1,
            Scale::Gps => 2,
        }
    }
}

// Microseconds from day -40000 on, every day having 86,400 s.
#[derive(Clone, Copy)]
pub struct Tai(pub u64);

#[derive(Clone, Copy)]
pub struct Gps(pub u64);

// The same with 86,401 s a day, so that second 60 has a place.
#[derive(Clone, Copy)]
pub struct Utc(pub u64);

// A tick of the satellite's binary time counter.
#[derive(Clone, Copy)]
pub struct Tick(pub u32);

// Where a record came from: from nothing that it tells, from Proteus with its H3, or from a correlation with its reference tick
// or count.
#[derive(Clone, Copy)]
pub enum Mark {
    Plain,
    Proteus(bool),
    Correlated(u64),
}

// A time as it is handed in or out: nothing is known of it.
#[derive(Clone, Copy)]
pub struct Record {
    pub scale: Scale,
    pub day: i64,
    pub micro: u64,
    pub mark: Mark,
}

// A time whose scale is known only when the program runs.
#[derive(Clone, Copy)]
pub enum Time {
    Tai(Tai),
    Utc(Utc),
    Gps(Gps),
}

// The rows of the refusal slip, as refusals.txt lists them.
#[derive(Clone, Copy, PartialEq, Eq)]
pub enum Refusal {
    LengthIsNone,
    MarkerWrong,
    FieldOver,
    DecimalNotFinite,
    ListNotAccepted,
    CorrelationNotAccepted,
    OutsideSpan,
    NotInForce,
    ListExpired,
    SecondLacking,
    ResultOutside,
    NoImage,
    OutputShorter,
    SeasonBroken,
    NoEntry,
    NotOneSecond,
    ResultLater,
}

impl Refusal {
    // The refusal, and the scale of its empty record.
    pub fn of(self, scale: Scale) -> Refused
        ensures { result ≡ refused_of scale self }
    {
        Refused {
            refusal: self,
            scale,
        }
    }

    pub fn number(self) -> u32
        ensures { result ≡ number_of self }
    {
        match self {
            Refusal::LengthIsNone => 1,
            Refusal::MarkerWrong => 2,
            Refusal::FieldOver => 3,
            Refusal::DecimalNotFinite => 4,
            Refusal::ListNotAccepted => 5,
            Refusal::CorrelationNotAccepted => 6,
            Refusal::OutsideSpan => 7,
            Refusal::NotInForce => 8,
            Refusal::ListExpired => 9,
            Refusal::SecondLacking => 10,
            Refusal::ResultOutside => 11,
            Refusal::NoImage => 12,
            Refusal::OutputShorter => 13,
            Refusal::SeasonBroken => 14,
            Refusal::NoEntry => 15,
            Refusal::NotOneSecond => 16,
            Refusal::ResultLater => 17,
        }
    }
}

// Why there is no record, and the scale of the empty one that is handed back instead.
#[derive(Clone, Copy, PartialEq, Eq)]
pub struct Refused {
    pub refusal: Refusal,
    pub scale: Scale,
}

// Where the answer's type tells the scale, the refusal is enough.
impl From<Refused> for Refusal {
    ghost from_gives = { λ e f. f ≡ e.refusal };

    fn from(e: Refused) -> Refusal {
        e.refusal
    }
}

impl Time {
    pub fn scale(self) -> Scale
        ensures { result ≡ time_scale self }
    {
        match self {
            Time::Tai(_) => Scale::Tai,
            Time::Utc(_) => Scale::Utc,
            Time::Gps(_) => Scale::Gps,
        }
    }

    // The count of a time in its own scale.
    pub fn count(self) -> u64
        ensures { result ≡ time_count self }
    {
        match self {
            Time::Tai(t) => t.0,
            Time::Utc(t) => t.0,
            Time::Gps(t) => t.0,
        }
    }

    pub fn to_record(self) -> Record
        ensures { result ≡ record_at (time_scale self) (time_count self) }
    {
        match self {
            Time::Tai(t) => t.to_record(),
            Time::Utc(t) => t.to_record(),
            Time::Gps(t) => t.to_record(),
        }
    }
}

impl Record {
    // A plain record, as a caller hands it in.
    pub fn new(scale: Scale, day: i64, micro: u64) -> Record
        ensures { result ≡ record_of scale day micro }
    {
        Record {
            scale,
            day,
            micro,
            mark: Mark::Plain,
        }
    }

    // The same time with a mark.
    pub fn with_mark(self, mark: Mark) -> Record
        ensures { result ≡ marked_record mark self }
    {
        let scale = self.scale;
        Record {
            scale,
            day: self.day,
            micro: self.micro,
            mark,
        }
    }

    // The time that a record stands for, or 7 outside its scale's span.
    pub fn to_time(self) -> Result<Time, Refused>
        ensures { slip_timed result ≡ spanned self.scale self.day self.micro }
    {
        let scale = self.scale;
        let n = count_of(scale, self.day, self.micro)?;
        Ok(time_at(scale, n))
    }

    // The record itself, or 7 outside its scale's span.
    pub fn judged(self) -> Result<Record, Refused>
        ensures { slip result ≡ spanned_as self.mark self.scale self.day self.micro }
    {
        count_of(self.scale, self.day, self.micro)?;
        Ok(self)
    }
}

impl Tai {
    pub const FIRST_DAY: i64 = -10227;

    pub const LAST_DAY: i64 = 36524;

    pub const BOUND: u64 = 86_400_000_000;

    pub fn new(day: i64, micro: u64) -> Result<Tai, Refusal>
        ensures { slip_tai result ≡ spanned Scale.Tai day micro }
    {
        Ok(Tai(count_of(Scale::Tai, day, micro)?))
    }

    pub fn to_record(self) -> Record
        ensures { result ≡ record_at Scale.Tai self.0 }
    {
        record_at(Scale::Tai, self.0)
    }
}

impl Utc {
    pub const FIRST_DAY: i64 = -10227;

    pub const LAST_DAY: i64 = 36524;

    pub const BOUND: u64 = 86_401_000_000;

    pub fn new(day: i64, micro: u64) -> Result<Utc, Refusal>
        ensures { slip_utc result ≡ spanned Scale.Utc day micro }
    {
        Ok(Utc(count_of(Scale::Utc, day, micro)?))
    }

    pub fn to_record(self) -> Record
        ensures { result ≡ record_at Scale.Utc self.0 }
    {
        record_at(Scale::Utc, self.0)
    }
}

impl Gps {
    pub const FIRST_DAY: i64 = -7300;

    pub const LAST_DAY: i64 = 36524;

    pub const BOUND: u64 = 86_400_000_000;

    pub fn new(day: i64, micro: u64) -> Result<Gps, Refusal>
        ensures { slip_gps result ≡ spanned Scale.Gps day micro }
    {
        Ok(Gps(count_of(Scale::Gps, day, micro)?))
    }

    pub fn to_record(self) -> Record
        ensures { result ≡ record_at Scale.Gps self.0 }
    {
        record_at(Scale::Gps, self.0)
    }
}
