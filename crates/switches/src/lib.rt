// Switches: the two minutes of a year, UTC, at which summer time begins and ends.
//
// What it finds equals the rule of specs/Switches; specs/Years has where in its year each lies, specs/Sundays that it is 01:00 UTC of the last Sunday
// of its month. It rests on calendar.
#![tactic(auto)]

ghost use Rattle.std.specs.Prelude.{◌≡◌, ◌≤◌};
ghost use Rattle.switches.specs.Switches.{sunday_minute, spring, autumn};
ghost use Rattle.switches.specs.LongMonths.{LongMonth};

#[derive(Clone, Copy)]
pub struct Switches {
    pub spring: u32,
    pub autumn: u32,
}

// 01:00 UTC of the last Sunday of a month of 31 days.
#[tactic(auto, unfolding(crate::specs::Switches::sunday_minute))]
fn sunday_minute(year: u32, month: u32) -> u32
    requires { LongMonth year month }
    ensures { result ≡ sunday_minute year month }
{
    let last = calendar::day_number(year, month, 31);
    calendar::last_sunday(last) * 1440 + 60
}

// The finder of the switches.
pub fn switches_of(year: u32) -> Switches
    requires { (2002 ≤ year) × (year ≤ 2105) }
    ensures { (result.spring ≡ spring year) × (result.autumn ≡ autumn year) }
{
    Switches {
        spring: sunday_minute(year, 3),
        autumn: sunday_minute(year, 10),
    }
}
