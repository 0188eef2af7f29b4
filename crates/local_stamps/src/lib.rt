// Local stamps: the two conversions for the planner, a C program, on plain numbers (M-103).
//
// Nothing is asked of the caller; each answer, and what the lent bytes hold then, equal definitions of specs/Exported. It rests on stamps.
#![tactic(auto)]

ghost use Rattle.std.specs.Prelude.{◌≡◌};
ghost use Rattle.stamps.specs.Laws.{Proper};
ghost use Rattle.local_stamps.specs.Exported.{served, to_utc, bytes_of, Filled};

use stamps::Stamp;

#[tactic(auto, unfolding(crate::specs::Exported::served))]
fn serves(base: u32) -> bool
    ensures { result ≡ served base }
{
    matches!(base, 0 | 60 | 120)
}

// ---- from a stamp

// The UTC minute, or 18, 19, 20. The parameters are the numbers of C's call.
#[tactic(auto, unfolding(crate::specs::Exported::to_utc))]
#[unsafe(no_mangle)]
pub extern "C" fn local_stamp_to_utc(
    base: u32,
    year: u32,
    month: u32,
    day: u32,
    hour: u32,
    minute: u32,
    mark: u32,
) -> u32
    ensures { result ≡ to_utc base (record { year = year; month = month; day = day; hour = hour; minute = minute; mark = mark }) }
{
    if !serves(base) {
        return 18;
    }
    let s = Stamp {
        year,
        month,
        day,
        hour,
        minute,
        mark,
    };
    stamps::number_of(stamps::read(base, s))
}

// ---- to a stamp

// A stamp in seven bytes, the year in two, high byte first.
#[tactic(auto, unfolding(crate::specs::Exported::bytes_of))]
fn bytes_of(s: Stamp) -> [u8; 7]
    requires { Proper s }
    ensures { result ≡ bytes_of s }
{
    [
        (s.year / 256) as u8,
        (s.year % 256) as u8,
        s.month as u8,
        s.day as u8,
        s.hour as u8,
        s.minute as u8,
        s.mark as u8,
    ]
}

// Fills the seven lent bytes and answers 0, or writes nothing and answers 18.
#[unsafe(no_mangle)]
pub extern "C" fn local_stamp_of_utc(base: u32, utc: u32, bytes: &mut [u8]) -> u32
    ensures { Filled base utc bytes.old result bytes.new }
{
    if !serves(base) || !stamps::covers(utc) || bytes.len() != 7 {
        return 18;
    }
    bytes.copy_from_slice(&bytes_of(stamps::stamp_of(base, utc)));
    0
}
