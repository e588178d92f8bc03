//! Laws of the definitions that this crate's contracts cite. The functions take no arguments and
//! return nothing: their contracts are what is proved.

ghost use Rattle.std.specs.Prelude.{◌≡◌, ℕ, List, ◌↔◌, true};
ghost use Rattle.csa_text.specs.Moment.{CalendarMoment, SpellsMoment, moment_of};
ghost use Rattle.csa_text.specs.Saying.{Saying};
ghost use Rattle.csa_text.specs.Spelling.{Spells};
ghost use Rattle.csa_text.specs.declared.calendar.Moment.{Moment};

use crate::calendar::Moment;

/// The bytes of a statement say at most one thing.
pub fn spelt_once()
    ensures saying { (bytes : List ℕ) (a b : Saying) → Spells bytes a → Spells bytes b → a ≡ b }
{}

/// Bytes spell at most one moment.
pub fn moment_once()
    ensures moment { (bytes : List ℕ) (a b : CalendarMoment) → SpellsMoment bytes a
        → SpellsMoment bytes b → a ≡ b }
{}

/// Two moments are equal exactly if their calendar moments are. So all spellings of one moment are
/// read as the same value.
pub fn equal_moments()
    ensures equal { (p q : Moment) → (⟦<Moment as PartialEq>⟧.eq p q ≡ true)
        ↔ (moment_of p ≡ moment_of q) }
{}
