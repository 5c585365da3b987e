// Seconds since 1970-01-01 00:00:00 UTC as a date of the Gregorian calendar, up to the year 9999.
// Every public call is total.
#![tactic(auto)]

ghost use Rattle.std.specs.Prelude.{◌≡◌, ℕ, ◌-◌, ◌≤◌};
ghost use Rattle.calendar.specs.Calendar.{leap, year_length, month_length, walk, date_of};

// A date and the time of its day. Months and days count from 1.
#[derive(Clone, Copy)]
pub struct Date {
    pub year: u32,
    pub month: u8,
    pub day: u8,
    pub hour: u8,
    pub minute: u8,
    pub second: u8,
}

// A year or a month, and the days of it that have passed.
#[derive(Clone, Copy)]
struct Place {
    at: u64,
    rest: u64,
}

// Whether y is a leap year.
#[tactic(auto, unfolding(crate::specs::Calendar::leap))]
fn leap(y: u64) -> bool
    ensures { result ≡ leap y }
{
    ((y % 4 == 0) & !(y % 100 == 0)) | (y % 400 == 0)
}

// The days of a year.
#[tactic(auto, unfolding(crate::specs::Calendar::year_length))]
fn year_length(y: u64) -> u64
    ensures { result ≡ year_length y }
{
    if leap(y) { 366 } else { 365 }
}

// The days of a month.
#[tactic(auto, unfolding(crate::specs::Calendar::month_in))]
fn month_length(y: u64, m: u64) -> u64
    ensures { result ≡ month_length y m }
{
    match m {
        2 if leap(y) => 29,
        2 => 28,
        4 | 6 | 9 | 11 => 30,
        _ => 31,
    }
}

// The year or month in which a day falls, of those from `first` on and before `end`, days counted from the first of `first`.
fn walk<F: Fn(u64) -> u64>(first: u64, end: u64, day: u64, length: F) -> Place
    ghost f: { ℕ → ℕ }
    requires order { first ≤ end }
    requires callable { F.IsAlwaysCallable length }
    requires lengths { (i r : ℕ) → F.post length i r → r ≡ f i }
    ensures { result ≡ walk f (end - first) first day }
{
    let mut rest = day;
    for at in first..end {
        let n = length(at);
        if rest < n {
            return Place { at, rest };
        }
        rest -= n;
    }
    Place { at: end, rest }
}

// The year in which a day falls, days counted from the first of 1970.
fn year_of(day: u64) -> Place
    ensures { result ≡ walk year_length 8030 1970 day }
{
    walk(1970, 10000, day, year_length)
}

// The month in which a day of year y falls.
fn month_of(y: u64, day: u64) -> Place
    ensures { result ≡ walk (month_length y) 12 1 day }
{
    walk(1, 13, day, move |m| month_length(y, m))
}

// The date of a number of seconds, where it is not past the year 9999.
pub fn date_of(seconds: u64) -> Option<Date>
    ensures { result ≡ date_of seconds }
{
    if 253402300800 <= seconds {
        return None;
    }
    let y = year_of(seconds / 86400);
    let m = month_of(y.at, y.rest);
    let t = seconds % 86400;
    Some(Date {
        year: y.at as u32,
        month: m.at as u8,
        day: (m.rest + 1) as u8,
        hour: (t / 3600) as u8,
        minute: (t % 3600 / 60) as u8,
        second: (t % 60) as u8,
    })
}
