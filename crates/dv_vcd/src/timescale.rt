//! The length of a tick.

use std::fmt;
use std::str::FromStr;

/// The number of time units in a tick. The format of dumps has no other numbers.
#[derive(Clone, Copy)]
pub enum UnitCount {
    /// 1 unit.
    One,
    /// 10 units.
    Ten,
    /// 100 units.
    Hundred,
}

impl UnitCount {
    fn word(self) -> &'static str {
        match self {
            UnitCount::One => "1",
            UnitCount::Ten => "10",
            UnitCount::Hundred => "100",
        }
    }
}

/// A unit of time, from a second down to a femtosecond.
#[derive(Clone, Copy)]
pub enum TimeUnit {
    /// A second, `s`.
    Second,
    /// A thousandth of a second, `ms`.
    Millisecond,
    /// A millionth of a second, `us`.
    Microsecond,
    /// 10^-9 seconds, `ns`.
    Nanosecond,
    /// 10^-12 seconds, `ps`.
    Picosecond,
    /// 10^-15 seconds, `fs`.
    Femtosecond,
}

impl TimeUnit {
    // All units. `s` is last because the words of the others end with it.
    const ALL: [TimeUnit; 6] = [
        TimeUnit::Millisecond,
        TimeUnit::Microsecond,
        TimeUnit::Nanosecond,
        TimeUnit::Picosecond,
        TimeUnit::Femtosecond,
        TimeUnit::Second,
    ];

    fn word(self) -> &'static str {
        match self {
            TimeUnit::Second => "s",
            TimeUnit::Millisecond => "ms",
            TimeUnit::Microsecond => "us",
            TimeUnit::Nanosecond => "ns",
            TimeUnit::Picosecond => "ps",
            TimeUnit::Femtosecond => "fs",
        }
    }
}

/// The length of a tick: 1, 10 or 100 units of time. It is displayed as `10 us`.
#[derive(Clone, Copy)]
pub struct Timescale {
    /// How many units a tick is.
    pub count: UnitCount,
    /// The unit of time.
    pub unit: TimeUnit,
}

impl Timescale {
    /// One second, the default.
    pub const SECOND: Timescale = Timescale {
        count: UnitCount::One,
        unit: TimeUnit::Second,
    };
}

impl fmt::Display for Timescale {
    fn fmt<W: fmt::Write>(&self, f: &mut fmt::Formatter<W>) -> fmt::Result {
        write!(f, "{} {}", self.count.word(), self.unit.word())
    }
}

/// The error of a text that is no timescale.
#[derive(Clone, Copy)]
pub struct NoTimescale;

impl FromStr for Timescale {
    type Err = NoTimescale;

    /// Reads `1`, `10` or `100`, then any number of blanks, then `s`, `ms`, `us`, `ns`, `ps` or
    /// `fs`.
    ///
    /// # Errors
    ///
    /// `NoTimescale` for any other text.
    fn from_str(text: &str) -> Result<Self, NoTimescale> {
        for unit in &TimeUnit::ALL {
            if let Some(count) = text.strip_suffix(unit.word()) {
                return Ok(Timescale {
                    count: count_in(count.trim_end_matches(' '))?,
                    unit: *unit,
                });
            }
        }
        Err(NoTimescale)
    }
}

fn count_in(text: &str) -> Result<UnitCount, NoTimescale> {
    match text {
        "1" => Ok(UnitCount::One),
        "10" => Ok(UnitCount::Ten),
        "100" => Ok(UnitCount::Hundred),
        _ => Err(NoTimescale),
    }
}
