// Stamps: the season of a UTC minute, the stamp of a UTC minute and the reading of a stamp, by value.
//
// Each function's result equals a definition of specs/Stamps. Laws for every base offset up to 180: specs/Laws (each minute's stamp reads back), Occurs (a date
// and time occurs once, twice or never), Refused (each refusal as it is listed), Counts. It rests on calendar for dates and on switches for the switches.
#![tactic(auto)]

ghost use Rattle.std.specs.Prelude.{◌≡◌, true, ◌≤◌, ◌<◌};
ghost use Rattle.switches.specs.Switches.{spring, autumn};
ghost use Rattle.stamps.specs.Stamps.{covered, year, summer, stamp_at, stamp, within, proper_date, proper, local, as_summer, as_winter, unmarked, settle, reading, refusal_number, number};

use switches::Switches;

#[derive(Clone, Copy)]
pub struct Stamp {
    pub year: u32,
    pub month: u32,
    pub day: u32,
    pub hour: u32,
    pub minute: u32,
    // A number as the caller has it, and no enum, since one past 2 is refused too (specs/Refused).
    pub mark: u32,
}

// Why a stamp is refused.
#[derive(Clone, Copy, PartialEq, Eq, Debug)]
pub enum Refusal {
    Outside,
    Skipped,
    Doubled,
}

impl Refusal {
    // Its number in document 02.
    fn number(self) -> u32
        ensures { result ≡ refusal_number self }
    {
        match self {
            Refusal::Outside => 18,
            Refusal::Skipped => 19,
            Refusal::Doubled => 20,
        }
    }
}

// What a stamp reads as: a UTC minute, or why it is refused.
pub type Reading = Result<u32, Refusal>;

// ---- the season of a UTC minute

#[tactic(auto, unfolding(crate::specs::Stamps::covered))]
pub fn covers(t: u32) -> bool
    ensures { result ≡ covered t }
{
    16830720 <= t && t < 71529120
}

// The switches of a minute's year.
fn switches_at(t: u32) -> Switches
    requires { covered t ≡ true }
    ensures { (result.spring ≡ spring (year t)) × (result.autumn ≡ autumn (year t)) }
{
    let p = calendar::year_of(t / 1440);
    switches::switches_of(p.at)
}

#[tactic(auto, unfolding(crate::specs::Stamps::summer))]
fn is_summer(t: u32) -> bool
    requires { covered t ≡ true }
    ensures { result ≡ summer t }
{
    let s = switches_at(t);
    s.spring <= t && t < s.autumn
}

// ---- the stamp of a UTC minute

// The stamp of a local minute.
#[tactic(auto, unfolding(crate::specs::Stamps::stamp_at, crate::specs::Stamps::stamped))]
fn stamp_at(mark: u32, l: u32) -> Stamp
    requires { l < 72054720 }
    ensures { result ≡ stamp_at mark l }
{
    let d = calendar::date_of(l / 1440);
    let r = l % 1440;
    Stamp {
        year: d.year,
        month: d.month,
        day: d.day,
        hour: r / 60,
        minute: r % 60,
        mark,
    }
}

#[tactic(auto, unfolding(crate::specs::Stamps::stamp))]
pub fn stamp_of(base: u32, t: u32) -> Stamp
    requires { (base ≤ 180) × (covered t ≡ true) }
    ensures { result ≡ stamp base t }
{
    if is_summer(t) {
        stamp_at(1, t + base + 60)
    } else {
        stamp_at(2, t + base)
    }
}

// ---- the reading of a stamp

#[tactic(auto, unfolding(crate::specs::Stamps::proper_date, crate::specs::Stamps::within))]
fn date_is_proper(year: u32, month: u32, day: u32) -> bool
    ensures { result ≡ proper_date year month day }
{
    (2002..=2106).contains(&year)
        && (1..=12).contains(&month)
        && (1..=calendar::month_days(year, month)).contains(&day)
        && calendar::day_number(year, month, day) <= 49673
}

#[tactic(auto, unfolding(crate::specs::Stamps::proper))]
fn is_proper(s: Stamp) -> bool
    ensures { result ≡ proper s }
{
    date_is_proper(s.year, s.month, s.day) && s.hour < 24 && s.minute < 60 && s.mark < 3
}

#[tactic(auto, unfolding(crate::specs::Stamps::local))]
fn local_minute(s: Stamp) -> u32
    requires { proper s ≡ true }
    ensures { result ≡ local s }
{
    let n = calendar::day_number(s.year, s.month, s.day);
    n * 1440 + s.hour * 60 + s.minute
}

// The readings of a local minute less the base offset.
#[tactic(auto, unfolding(crate::specs::Stamps::as_summer))]
fn as_summer(w: u32) -> Reading
    requires { 60 ≤ w }
    ensures { result ≡ as_summer w }
{
    let t = w - 60;
    if covers(t) && is_summer(t) {
        Ok(t)
    } else {
        Err(Refusal::Outside)
    }
}

#[tactic(auto, unfolding(crate::specs::Stamps::as_winter))]
fn as_winter(w: u32) -> Reading
    ensures { result ≡ as_winter w }
{
    if covers(w) && !is_summer(w) {
        Ok(w)
    } else {
        Err(Refusal::Outside)
    }
}

fn as_unmarked(w: u32) -> Reading
    ensures { result ≡ unmarked w }
{
    if !covers(w) {
        return Err(Refusal::Outside);
    }
    let s = switches_at(w);
    if w < s.spring {
        Ok(w)
    } else if w - s.spring < 60 {
        Err(Refusal::Skipped)
    } else if w < s.autumn {
        Ok(w - 60)
    } else if w - s.autumn < 60 {
        Err(Refusal::Doubled)
    } else {
        Ok(w)
    }
}

#[tactic(auto, unfolding(crate::specs::Stamps::settle))]
fn settle_minute(mark: u32, w: u32) -> Reading
    requires { 60 ≤ w }
    ensures { result ≡ settle mark w }
{
    match mark {
        1 => as_summer(w),
        2 => as_winter(w),
        _ => as_unmarked(w),
    }
}

#[tactic(auto, unfolding(crate::specs::Stamps::reading))]
pub fn read(base: u32, s: Stamp) -> Reading
    requires { base ≤ 180 }
    ensures { result ≡ reading base s }
{
    if !is_proper(s) {
        return Err(Refusal::Outside);
    }
    settle_minute(s.mark, local_minute(s) - base)
}

// The number of a reading, as document 02 has it.
pub fn number_of(r: Reading) -> u32
    ensures { result ≡ number r }
{
    match r {
        Ok(t) => t,
        Err(refusal) => refusal.number(),
    }
}
