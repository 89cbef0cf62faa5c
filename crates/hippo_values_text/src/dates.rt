//! Converts days and moments to text and back.
ghost use Rattle.std.specs.Prelude.{◌≡◌, ◌≢◌, ◌<◌, ℕ, ℤ, pos, unsigned_abs, ◌+ℤ◌, ◌*ℤ◌, [], ◌∷◌, Some, IfSome, IfNone};
ghost use Rattle.hippo_values_text.specs.Dates.{two_digits, date_text, clock_text, day_text, time_text, moment_text, HasDate, IsDayText, IsMomentText};
ghost use Rattle.std.specs.Int.{int_div_euclid, int_rem_euclid};
ghost use Rattle.std.specs.Str.{IsAscii};

use hippo_values::{DayNumber, Moment};
use jiff_core::civil::Date;

// The length in bytes of a day as text.
const DAY_LENGTH: usize = 10;

// The length in bytes of the time of day that follows the day in a moment's text.
const TIME_LENGTH: usize = 10;

const LAST_HOUR: u8 = 23;

const SECONDS_OF_DAY: i64 = 86_400;

// The number of days before 1970-01-01 in the calendar of `jiff_core`.
const DAYS_BEFORE: i32 = 4_371_587;

// The number that two digits spell.
fn two_digits(tens: u8, ones: u8) -> Option<u8>
    ensures some { IfSome result (λ n. (n < 100) × (two_digits n ≡ tens ∷ ones ∷ [])) }
    ensures none { IfNone result ((n : ℕ) → n < 100 → two_digits n ≢ tens ∷ ones ∷ []) }
{
    if tens.is_ascii_digit() && ones.is_ascii_digit() {
        Some((tens - b'0') * 10 + (ones - b'0'))
    } else {
        None
    }
}

// The year, month and day in a text of the form YYYY-MM-DD. They need not be a real date.
fn date_parts(bytes: &[u8]) -> Option<(u16, u8, u8)>
    ensures some { IfSome result
        (λ p. (p.0 < 10000) × (p.1 < 100) × (p.2 < 100) × (bytes.now ≡ date_text p.0 p.1 p.2)) }
    ensures none { IfNone result
        ((y m d : ℕ) → y < 10000 → m < 100 → d < 100 → bytes.now ≢ date_text y m d) }
{
    if bytes.len() != DAY_LENGTH || bytes[4] != b'-' || bytes[7] != b'-' {
        return None;
    }
    let century = two_digits(bytes[0], bytes[1])?;
    let year = two_digits(bytes[2], bytes[3])?;
    let month = two_digits(bytes[5], bytes[6])?;
    let day = two_digits(bytes[8], bytes[9])?;
    Some((u16::from(century) * 100 + u16::from(year), month, day))
}

// The day with this date, if it is a date of the years 0001 to 9999.
fn day_of_date(year: u16, month: u8, day: u8) -> Option<DayNumber>
    requires year_in { year < 10000 }
    requires month_in { month < 100 }
    requires day_in { day < 100 }
    ensures some { IfSome result (λ number. HasDate number year month day) }
    ensures none { IfNone result ((number : ℤ) → ¬ (HasDate number year month day)) }
{
    if year == 0 {
        return None;
    }
    match Date::new(year as i16, month as i8, day as i8) {
        Ok(date) => DayNumber::new(date.to_unix_epoch_day()),
        Err(_) => None,
    }
}

fn day_of_bytes(bytes: &[u8]) -> Option<DayNumber>
    ensures some { IfSome result (IsDayText bytes.now) }
    ensures none { IfNone result ((day : ℤ) → ¬ (IsDayText bytes.now day)) }
{
    let (year, month, day) = date_parts(bytes)?;
    day_of_date(year, month, day)
}

/// Reads a day as `YYYY-MM-DD`; none if the text is not a day of the years 0001 to 9999 in this
/// form.
pub fn read_day(text: &str) -> Option<DayNumber>
    ensures some { IfSome result (IsDayText text.now) }
    ensures none { IfNone result ((day : ℤ) → ¬ (IsDayText text.now day)) }
    ensures inverse { (day : ℤ) → IsDayText text.now day → result ≡ Some day }
{
    day_of_bytes(text.as_bytes())
}

// The hour, minute and second in a text of the form Thh:mm:ssZ. They need not be a real time.
fn clock_parts(bytes: &[u8]) -> Option<(u8, u8, u8)>
    ensures some { IfSome result
        (λ p. (p.0 < 100) × (p.1 < 100) × (p.2 < 100) × (bytes.now ≡ clock_text p.0 p.1 p.2)) }
    ensures none { IfNone result
        ((h m s : ℕ) → h < 100 → m < 100 → s < 100 → bytes.now ≢ clock_text h m s) }
{
    if bytes.len() != TIME_LENGTH
        || bytes[0] != b'T'
        || bytes[3] != b':'
        || bytes[6] != b':'
        || bytes[9] != b'Z'
    {
        return None;
    }
    let hour = two_digits(bytes[1], bytes[2])?;
    let minute = two_digits(bytes[4], bytes[5])?;
    let second = two_digits(bytes[7], bytes[8])?;
    Some((hour, minute, second))
}

// The second of the day in a text of the form Thh:mm:ssZ.
fn second_of_bytes(bytes: &[u8]) -> Option<u32>
    ensures some { IfSome result (λ second. (second < 86400) × (bytes.now ≡ time_text second)) }
    ensures none { IfNone result ((second : ℕ) → second < 86400 → bytes.now ≢ time_text second) }
{
    let (hour, minute, second) = clock_parts(bytes)?;
    if hour > LAST_HOUR || minute > 59 || second > 59 {
        return None;
    }
    Some(u32::from(hour) * 3600 + u32::from(minute) * 60 + u32::from(second))
}

fn moment_at(day: DayNumber, second: u32) -> Option<Moment>
    requires { second < 86400 }
    ensures { result ≡ Some (day *ℤ pos 86400 +ℤ pos second) }
{
    Moment::new(i64::from(day.day()) * SECONDS_OF_DAY + i64::from(second))
}

fn moment_of_bytes(bytes: &[u8]) -> Option<Moment>
    ensures some { IfSome result (IsMomentText bytes.now) }
    ensures none { IfNone result ((second : ℤ) → ¬ (IsMomentText bytes.now second)) }
{
    let (date, time) = bytes.split_at_checked(DAY_LENGTH)?;
    let day = day_of_bytes(date)?;
    let second = second_of_bytes(time)?;
    moment_at(day, second)
}

/// Reads a moment as `YYYY-MM-DDThh:mm:ssZ`; none if the text is not a moment of the years 0001 to
/// 9999 in this form.
pub fn read_moment(text: &str) -> Option<Moment>
    ensures some { IfSome result (IsMomentText text.now) }
    ensures none { IfNone result ((second : ℤ) → ¬ (IsMomentText text.now second)) }
    ensures inverse { (second : ℤ) → IsMomentText text.now second → result ≡ Some second }
{
    moment_of_bytes(text.as_bytes())
}

// The year, month and day of month of a day.
fn date_of_day(day: DayNumber) -> (u16, u8, u8)
    ensures { HasDate day result.0 result.1 result.2 }
{
    let date = Date::from_days_since_min((day.day() + DAYS_BEFORE) as u32);
    (date.year as u16, date.month, date.day)
}

fn digits(number: u8) -> [u8; 2]
    requires { number < 100 }
    ensures { result ≡ two_digits number }
{
    [b'0' + number / 10, b'0' + number % 10]
}

/// The day as `YYYY-MM-DD`.
pub fn day_text(day: DayNumber) -> [u8; 10]
    ensures value { result ≡ day_text day }
    ensures ascii { IsAscii result }
{
    let (year, month, day) = date_of_day(day);
    let [y1, y2] = digits((year / 100) as u8);
    let [y3, y4] = digits((year % 100) as u8);
    let [m1, m2] = digits(month);
    let [d1, d2] = digits(day);
    [y1, y2, y3, y4, b'-', m1, m2, b'-', d1, d2]
}

// The day that contains a moment.
fn day_of_moment(moment: Moment) -> DayNumber
    ensures { result ≡ int_div_euclid moment (pos 86400) }
{
    DayNumber::new(moment.seconds().div_euclid(SECONDS_OF_DAY) as i32).unwrap()
}

// The seconds from the start of its day to a moment.
fn second_of_moment(moment: Moment) -> u32
    ensures value { result ≡ unsigned_abs (int_rem_euclid moment (pos 86400)) }
    ensures bound { result < 86400 }
{
    moment.seconds().rem_euclid(SECONDS_OF_DAY) as u32
}

// A second of the day as Thh:mm:ssZ.
fn time_text(second: u32) -> [u8; 10]
    requires { second < 86400 }
    ensures value { result ≡ time_text second }
    ensures ascii { IsAscii result }
{
    let [h1, h2] = digits((second / 3600) as u8);
    let [m1, m2] = digits((second / 60 % 60) as u8);
    let [s1, s2] = digits((second % 60) as u8);
    [b'T', h1, h2, b':', m1, m2, b':', s1, s2, b'Z']
}

/// The moment as `YYYY-MM-DDThh:mm:ssZ`.
pub fn moment_text(moment: Moment) -> [u8; 20]
    ensures value { result ≡ moment_text moment }
    ensures ascii { IsAscii result }
{
    let mut text = [0; 20];
    text[..DAY_LENGTH].copy_from_slice(&day_text(day_of_moment(moment)));
    text[DAY_LENGTH..].copy_from_slice(&time_text(second_of_moment(moment)));
    text
}
