ghost use Rattle.std.specs.Prelude.{◌≡◌, pos, ◌≤ℤ◌, IfSome};
ghost use Rattle.std.proofs.Props.{props};

use jiff::civil::{Date, Time};

/// A day of the Gregorian calendar in the years 0000 to 9999, alone or with a time of day in whole
/// seconds. A date alone and a date with a time are different moments.
#[derive(Clone, Copy, Debug, PartialEq, Eq)]
pub struct Moment {
    pub(crate) date: Date,
    pub(crate) time: Option<Time>,
    pub(crate) ghost year_in: { (pos 0 ≤ℤ date.year) × (date.year ≤ℤ pos 9999) },
    pub(crate) ghost whole_seconds: { IfSome time (λ t. t.subsec_nanosecond ≡ 0) } by { Prim.hlevel props },
}
