//! Days, by their year and their place in it.

ghost use Rattle.std.specs.Prelude.{◌↔◌, ◌≡◌, pos, ◌≤◌, ◌+ℤ◌, ◌≤ℤ◌, IsTrue};
ghost use Rattle.jiff.specs.Words.{epoch_day, ordinal, IsYmd, IsEpochDay, IsWithin};
ghost use Rattle.by_rules.specs.Day.{IsToday, IsShift, IsDayAfter, IsEarlier};

use jiff::ToSpan;
use jiff::civil::{Date, date};

/// A year, and a day of it from 1. A row may have a day that no year has, as day 0 or day 999.
#[derive(Clone, Copy, Debug, PartialEq, Eq)]
pub struct Day {
    pub year: u16,
    pub day: u16,
}

impl Day {
    /// Whether it is a day of the calendar, of the years 1900 to 2155.
    pub fn can_be_today(self) -> bool
        ensures { IsTrue result ↔ IsToday self }
    {
        1900 <= self.year
            && self.year <= 2155
            && 1 <= self.day
            && self.day <= days_of_year(self.year)
    }

    /// Whether it stands before the other, by year and then by day.
    pub fn is_earlier(self, other: Day) -> bool
        ensures { IsTrue result ↔ IsEarlier self other }
    {
        self.year < other.year || (self.year == other.year && self.day < other.day)
    }

    /// The day that is so many days later, on the calendar.
    pub(crate) fn after(self, days: i32) -> Day
        requires today { IsToday self }
        requires days { IsShift days }
        ensures { IsDayAfter self days result }
    {
        let first = first_of(self.year);
        Day::of(moved(first, to_add(self.day, days)))
    }

    fn of(date: Date) -> Day
        requires { pos 0 ≤ℤ date.year }
        ensures year { pos result.year ≡ date.year }
        ensures day { result.day ≡ ordinal date }
    {
        Day {
            year: date.year() as u16,
            day: date.day_of_year() as u16,
        }
    }
}

fn days_of_year(year: u16) -> u16
    ensures { result ≡ Rattle.by_rules.specs.Day.days_of_year year }
{
    if year % 4 == 0 && (year % 100 != 0 || year % 400 == 0) {
        366
    } else {
        365
    }
}

/// The first day of a year.
fn first_of(year: u16) -> Date
    requires { year ≤ 9999 }
    ensures { IsYmd (pos year) (pos 1) (pos 1) result }
{
    date(year as i16, 1, 1)
}

/// How many days are added to the first day of a year.
fn to_add(day: u16, days: i32) -> i32
    requires { IsShift days }
    ensures { (result +ℤ pos 1) ≡ (pos day +ℤ days) }
{
    i32::from(day) + days - 1
}

/// The date that is so many days later.
fn moved(from: Date, days: i32) -> Date
    requires near { IsWithin 40000 days }
    requires there { IsEpochDay (epoch_day from +ℤ days) }
    ensures { epoch_day result ≡ epoch_day from +ℤ days }
{
    let Ok(then) = from.checked_add((days as i64).days()) else {
        unreachable!()
    };
    then
}
