// Calendar: leap years, month lengths, day numbers since 1 January 1970, dates, last Sundays.
//
// Each function's result equals a definition of specs/Calendar; specs/Dates has the laws: dates and day numbers are inverse. specs/Days: each day has
// the date and the weekday after those of the day before. It rests on no other crate.
#![tactic(auto)]

ghost use Rattle.std.specs.Prelude.{◌≡◌, ℕ, ◌-◌, ◌≤◌, ◌<◌};
ghost use Rattle.calendar.specs.Spans.{find, Gives};
ghost use Rattle.calendar.specs.Near.{Near};
ghost use Rattle.calendar.specs.Calendar.{leap, year_days, month_days, first_day, days_before, day_number, year_of, date_in, date_of, IsDate, last_sunday};

// A span of a row of spans, and how far into it.
#[derive(Clone, Copy)]
pub struct Place {
    pub at: u32,
    pub rest: u32,
}

#[derive(Clone, Copy)]
pub struct Date {
    pub year: u32,
    pub month: u32,
    pub day: u32,
}

// ---- years and months

#[tactic(auto, unfolding(crate::specs::Calendar::leap))]
pub fn is_leap(year: u32) -> bool
    ensures { result ≡ leap year }
{
    year % 400 == 0 || (year % 100 != 0 && year % 4 == 0)
}

#[tactic(auto, unfolding(crate::specs::Calendar::year_days))]
pub fn year_days(year: u32) -> u32
    ensures { result ≡ year_days year }
{
    if is_leap(year) { 366 } else { 365 }
}

#[tactic(auto, unfolding(crate::specs::Calendar::month_days, crate::specs::Calendar::thirty))]
pub fn month_days(year: u32, month: u32) -> u32
    ensures { result ≡ month_days year month }
{
    match month {
        2 if is_leap(year) => 29,
        2 => 28,
        4 | 6 | 9 | 11 => 30,
        _ => 31,
    }
}

// ---- the number of a day

// The number of 1 January: 365 days a year since 1970 and the leap days, one for each multiple of 4, none for those of 100, but for those of 400.
fn first_day(year: u32) -> u32
    requires { (1970 ≤ year) × (year ≤ 2106) }
    ensures { (result ≡ first_day year) × (result ≤ 49776) }
{
    let leaps = (year - 1969) / 4 - (year - 1901) / 100 + (year - 1601) / 400;
    365 * (year - 1970) + leaps
}

// The days of a year before a month.
fn days_before(year: u32, month: u32) -> u32
    requires { (1 ≤ month) × (month ≤ 12) }
    ensures { (result ≡ days_before year month) × (result ≤ 341) }
{
    let mut n: u32 = 0;
    for m in 1..month {
        n += month_days(year, m);
    }
    n
}

// The three stand apart, and in no Date, since a stamp has them apart.
pub fn day_number(year: u32, month: u32, day: u32) -> u32
    requires { IsDate year month day }
    ensures { (result ≡ day_number year month day) × (result ≤ 50147) }
{
    first_day(year) + days_before(year, month) + (day - 1)
}

// ---- the date of a day

// The year from which that of a day is looked for: years have at most 366 days, so it is never past it.
fn near_year(n: u32) -> u32
    ensures { Near n result }
{
    (1970 + n / 366).min(2106)
}

// The span in which n lies, of spans from `first` on whose lengths a closure gives, and how far into it; `last` if in none before it.
fn find<F: Fn(u32) -> u32>(first: u32, last: u32, n: u32, length: F) -> Place
    requires ordered { first ≤ last }
    requires callable { F.IsAlwaysCallable length }
    ensures within { result.rest ≤ n }
    ensures found { (len : ℕ → ℕ) → Gives (F.post length) last len → result ≡ find len (last - first) first n }
{
    let mut rest = n;
    for at in first..last {
        let span = length(at);
        if rest < span {
            return Place { at, rest };
        }
        rest -= span;
    }
    Place { at: last, rest }
}

// The year of a day, and the day in it.
pub fn year_of(n: u32) -> Place
    ensures { result ≡ year_of n }
{
    let near = near_year(n);
    find(near, 2106, n - first_day(near), year_days)
}

// The date of a day of a year.
fn date_in(year: u32, n: u32) -> Date
    requires { n < 4294967295 }
    ensures { result ≡ date_in year n }
{
    let place = find(1, 12, n, |month| month_days(year, month));
    Date {
        year,
        month: place.at,
        day: place.rest + 1,
    }
}

#[tactic(auto, unfolding(crate::specs::Calendar::date_of))]
pub fn date_of(n: u32) -> Date
    requires { n < 50038 }
    ensures { result ≡ date_of n }
{
    let p = year_of(n);
    date_in(p.at, p.rest)
}

// ---- Sundays

#[tactic(auto, unfolding(crate::specs::Calendar::last_sunday, crate::specs::Calendar::weekday))]
pub fn last_sunday(n: u32) -> u32
    requires { (4 ≤ n) × (n ≤ 50147) }
    ensures { (result ≡ last_sunday n) × (result ≤ n) }
{
    n - (n + 4) % 7
}
