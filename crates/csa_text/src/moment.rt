ghost use Rattle.std.specs.Char.{digit_value};
ghost use Rattle.std.specs.Prelude.{◌≡◌, ℕ, ◌+◌, ◌^◌, ◌<◌, ◌≤◌, ◌++◌, ◌↔◌, pos, ◌≤ℤ◌, unsigned_abs, MatchOption, IfSome, IfNone, IsSome};
ghost use Rattle.jiff_core.specs.Calendar.{IsCivilDate};
ghost use Rattle.arrayvec.specs.ArrayString.{array_string_len};
ghost use Rattle.csa_text.specs.Fields.{two_digits};
ghost use Rattle.csa_text.specs.Moment.{CalendarMoment, SpellsDate, SpellsTime, SpellsMoment, AreNumbers, date_text, clock_text, moment_text, moment_of};

use crate::calendar::Moment;
use crate::fields::{read_number, split_at_byte};
use arrayvec::ArrayString;
use jiff::civil::{Date, Time};

impl Moment {
    /// The canonical text: `YYYY/MM/DD`, or `YYYY/MM/DD HH:MM:SS`. `read_moment` reads it back as
    /// this moment.
    pub fn text(&self) -> ArrayString<19>
        ensures text { result.bytes ≡ moment_text (moment_of self.now) }
        ensures read_back { SpellsMoment result.bytes (moment_of self.now) }
    {
        let mut text = ArrayString::new();
        push_date(&mut text, self.date);
        if let Some(time) = self.time {
            text.push(' ');
            push_time(&mut text, time);
        }
        text
    }
}

/// Reads a date, alone or with a time of day, as CSA V2.2 writes them in headers.
///
/// The text is four digits, `/`, one or two digits, `/`, one or two digits. A time of day may
/// follow: one space, one or two digits, `:`, two digits, `:`, two digits. Returns `None` for any
/// other text, if the calendar does not have the day, if the hour is above 23, or if the minute or
/// the second is above 59.
pub fn read_moment(bytes: &[u8]) -> Option<Moment>
    ensures moment { IfSome result (λ moment. SpellsMoment bytes.now (moment_of moment)) }
    ensures none { IfNone result ((moment : CalendarMoment) → SpellsMoment bytes.now moment → ⊥) }
{
    let Some((date, time)) = split_at_byte(bytes, b' ') else {
        return Some(Moment {
            date: read_date(bytes)?,
            time: None,
        });
    };
    Some(Moment {
        date: read_date(date)?,
        time: Some(read_time(time)?),
    })
}

fn read_date(bytes: &[u8]) -> Option<Date>
    ensures value { MatchOption result
        ((year month day : ℕ) → SpellsDate bytes.now year month day → ⊥)
        (λ date. SpellsDate bytes.now (unsigned_abs date.year) date.month date.day) }
    ensures bounds { IfSome result (λ date. (pos 0 ≤ℤ date.year) × (date.year ≤ℤ pos 9999)) }
{
    let (year, month, day) = three_numbers(bytes, b'/', (4, 4), 1)?;
    date_of(year, month, day)
}

fn read_time(bytes: &[u8]) -> Option<Time>
    ensures value { MatchOption result
        ((hour minute second : ℕ) → SpellsTime bytes.now hour minute second → ⊥)
        (λ time. SpellsTime bytes.now time.hour time.minute time.second) }
    ensures whole_seconds { IfSome result (λ time. time.subsec_nanosecond ≡ 0) }
{
    let (hour, minute, second) = three_numbers(bytes, b':', (1, 2), 2)?;
    time_of(hour, minute, second)
}

// The day, if the calendar has it.
fn date_of(year: u16, month: u16, day: u16) -> Option<Date>
    requires { (year < 10000) × (month < 100) × (day < 100) }
    ensures exists { IsSome result ↔ IsCivilDate (pos year) month day }
    ensures value { IfSome result
        (λ date. (date.year ≡ pos year) × (date.month ≡ month) × (date.day ≡ day)) }
{
    Date::new(year as i16, month as i8, day as i8).ok()
}

// The time of day, if there is such a time.
fn time_of(hour: u16, minute: u16, second: u16) -> Option<Time>
    requires { (hour < 100) × (minute < 100) × (second < 100) }
    ensures exists { IsSome result ↔ ((hour ≤ 23) × (minute ≤ 59) × (second ≤ 59)) }
    ensures value { IfSome result
        (λ time. (time.hour ≡ hour) × (time.minute ≡ minute) × (time.second ≡ second)
        × (time.subsec_nanosecond ≡ 0)) }
{
    Time::new(hour as i8, minute as i8, second as i8, 0).ok()
}

// Three numbers with the mark between them. The first has as many digits as its two bounds allow;
// each other has at least `others` and at most two.
fn three_numbers(
    bytes: &[u8],
    mark: u8,
    first: (usize, usize),
    others: usize,
) -> Option<(u16, u16, u16)>
    requires few { first.1 ≤ 4 }
    requires mark { digit_value mark < 10 → ⊥ }
    ensures value { MatchOption result
        ((a b c : ℕ) → AreNumbers mark first.0 first.1 others bytes.now a b c → ⊥)
        (λ n. AreNumbers mark first.0 first.1 others bytes.now n.0 n.1 n.2) }
    ensures bounds { IfSome result (λ n. (n.0 < 10 ^ first.1) × (n.1 < 100) × (n.2 < 100)) }
{
    let (front, rest) = split_at_byte(bytes, mark)?;
    let (middle, back) = split_at_byte(rest, mark)?;
    let (fewest, most) = first;
    Some((
        read_number(front, fewest, most)?,
        read_number(middle, others, 2)?,
        read_number(back, others, 2)?,
    ))
}

fn push_date(text: &mut ArrayString<19>, date: Date)
    requires room { array_string_len text.old + 10 ≤ 19 }
    requires years { (pos 0 ≤ℤ date.year) × (date.year ≤ℤ pos 9999) }
    ensures { text.new.bytes
        ≡ text.old.bytes ++ date_text (unsigned_abs date.year) date.month date.day }
{
    let year = date.year() as u16;
    push_two(text, (year / 100) as u8);
    push_two(text, (year % 100) as u8);
    text.push('/');
    push_two(text, date.month() as u8);
    text.push('/');
    push_two(text, date.day() as u8);
}

fn push_time(text: &mut ArrayString<19>, time: Time)
    requires room { array_string_len text.old + 8 ≤ 19 }
    ensures { text.new.bytes ≡ text.old.bytes ++ clock_text time.hour time.minute time.second }
{
    push_two(text, time.hour() as u8);
    text.push(':');
    push_two(text, time.minute() as u8);
    text.push(':');
    push_two(text, time.second() as u8);
}

fn push_two(text: &mut ArrayString<19>, n: u8)
    requires room { array_string_len text.old + 2 ≤ 19 }
    requires small { n < 100 }
    ensures text { text.new.bytes ≡ text.old.bytes ++ two_digits n }
    ensures len { array_string_len text.new ≡ array_string_len text.old + 2 }
{
    text.push((b'0' + n / 10) as char);
    text.push((b'0' + n % 10) as char);
}
