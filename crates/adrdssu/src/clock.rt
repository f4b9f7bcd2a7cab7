//! The day of a run.

ghost use Rattle.std.specs.Prelude.{IfSome};
ghost use Rattle.by_rules.specs.Day.{IsToday};

use adr_top::Day;
use jiff::Timestamp;
use jiff::tz::TimeZone;

/// The day that the clock tells, in UTC. None where it can't be read, or isn't a day of the years 1900 to 2155.
pub fn today(rt: &HostRuntime) -> Option<Day>
    ensures { IfSome result (λ day. IsToday day) }
{
    let now = Timestamp::now(rt).ok()?.to_zoned(TimeZone::UTC);
    let today = Day {
        year: u16::try_from(now.year()).ok()?,
        day: u16::try_from(now.day_of_year()).ok()?,
    };
    if today.can_be_today() {
        Some(today)
    } else {
        None
    }
}
