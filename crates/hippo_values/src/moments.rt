//! Days and moments of the years 0001 to 9999, as numbers.
ghost use Rattle.std.specs.Prelude.{◌≡◌, SomeIff};
ghost use Rattle.hippo_values.specs.Moments.{IsDayNumber, IsMoment};

use std::hash::Hash;
use std::marker::Model;

/// A day of the years 0001 to 9999, as the number of days since 1970-01-01.
#[derive(Clone, Copy, Debug, PartialEq, Eq, PartialOrd, Ord, Hash)]
pub struct DayNumber {
    day: i32,
}

impl Model for DayNumber {
    ghost use Rattle.std.specs.Prelude.{ℤ};
    ghost use Rattle.hippo_values.specs.Moments.{IsDayNumber};

    ghost Value = { ℤ };

    ghost view = { λ number. number.day };

    ghost invariant = { λ number. IsDayNumber number.day };

    ghost inverse = { λ day. record { day = day } };
}

impl DayNumber {
    /// The first day, 0001-01-01.
    pub const FIRST: i32 = -719162;

    /// The last day, 9999-12-31.
    pub const LAST: i32 = 2932896;

    /// The day with this number; none if it is outside the years 0001 to 9999.
    pub fn new(day: i32) -> Option<DayNumber>
        ensures { SomeIff result (IsDayNumber day) day }
    {
        if day < Self::FIRST || day > Self::LAST {
            None
        } else {
            Some(DayNumber { day })
        }
    }

    /// The number of days since 1970-01-01.
    pub fn day(&self) -> i32
        ensures number { result ≡ self.now }
        ensures range { IsDayNumber self.now }
    {
        self.day
    }
}

/// A second of the years 0001 to 9999, as the number of seconds since 1970-01-01T00:00:00Z.
#[derive(Clone, Copy, Debug, PartialEq, Eq, PartialOrd, Ord)]
pub struct Moment {
    second: i64,
}

impl Model for Moment {
    ghost use Rattle.std.specs.Prelude.{ℤ};
    ghost use Rattle.hippo_values.specs.Moments.{IsMoment};

    ghost Value = { ℤ };

    ghost view = { λ moment. moment.second };

    ghost invariant = { λ moment. IsMoment moment.second };

    ghost inverse = { λ second. record { second = second } };
}

impl Moment {
    /// The first moment, 0001-01-01T00:00:00Z.
    pub const FIRST: i64 = -62135596800;

    /// The last moment, 9999-12-31T23:59:59Z.
    pub const LAST: i64 = 253402300799;

    /// The moment with this number of seconds; none if it is outside the years 0001 to 9999.
    pub fn new(seconds: i64) -> Option<Moment>
        ensures { SomeIff result (IsMoment seconds) seconds }
    {
        if seconds < Self::FIRST || seconds > Self::LAST {
            None
        } else {
            Some(Moment { second: seconds })
        }
    }

    /// The number of seconds since 1970-01-01T00:00:00Z.
    pub fn seconds(&self) -> i64
        ensures number { result ≡ self.now }
        ensures range { IsMoment self.now }
    {
        self.second
    }
}
