//! Laws of a bridge in a session, whatever its engine and its server are. The functions take and
//! give nothing; each law is a clause.

ghost use Rattle.std.specs.Prelude.{◌≡◌, ◌++◌, ◌∷◌, ℕ, List, Option, Some, codes};
ghost use Rattle.bridge_table.specs.declared.config.Config.{Config};
ghost use Rattle.bridge_table.specs.declared.event.Status.{Status};
ghost use Rattle.session_commands.specs.Endings.{Ended};
ghost use Rattle.session_commands.specs.Holding.{TookAll};
ghost use Rattle.session_commands.specs.LogTexts.{AppendsEntries, AppendsFrontOf, DifferInPasswords, HidesPassword, IsLogFront, IsLogText, notes_text};
ghost use Rattle.session_commands.specs.Logging.{Entry, NotesAll, passed};
ghost use Rattle.session_commands.specs.Noting.{KeptBefore, KeptIn};
ghost use Rattle.session_commands.specs.OtherPasswords.{TakesLogin, with_config};
ghost use Rattle.session_commands.specs.PlayedLogs.{PlaysLegally, handed, happened};
ghost use Rattle.session_commands.specs.Plays.{History};
ghost use Rattle.session_commands.specs.LackOfMemoryLogs.{SentLegally, passed_before, sent_before};
ghost use Rattle.session_commands.specs.LackOfMemory.{PlayRunsOut};
ghost use Rattle.session_commands.specs.declared.bridging.Peer.{Peer};
ghost use Rattle.session_commands.specs.declared.log.LogState.{LogState};
ghost use Rattle.session_commands.specs.declared.log.TextLog.{TextLog as Texts};
ghost use Rattle.session_commands.specs.declared.log.LogState.TheVariants as log_state;
ghost use Rattle.session_lines.specs.LineTexts.{login_front};
ghost use Rattle.shogi_session.specs.Host.{IsLoginWord};
ghost use Rattle.shogi_session.specs.Passwords.{DifferInPassword};
ghost use Rattle.shogi_session.specs.Promises.{Session};
ghost use Rattle.shogi_session.specs.State.{first_state};
ghost use Rattle.std.specs.Io.KnownBytes.{Appends};

use crate::bridging::Ends;
use crate::log::{Log, Logged, TextLog, Timer};
use bridge_table::laws::{ends_are_silent, password_is_in_the_login_alone, sent_legal, sent_once};
use std::io::Write;

/// What passes between a bridge, its engine and its server is a log from the bridge's first state
/// on. So each answer that is sent to the server is a legal move of the client's side in the game
/// that the server confirmed, or `%TORYO`, or `%KACHI`. None is sent while another waits for
/// confirmation. If an allocation fails, this holds of all that was sent before.
pub fn played_moves_are_legal<E: Ends>()
    ensures legal { (e : E) (s : Session) (f : E) (t : Session) (status : Status)
        (played : History E.came E.went E.gone e s f t status)
        → s.state ≡ first_state
        → PlaysLegally s.config (happened played) (handed Peer.Server played) t.state }
    ensures out_of_memory { (e : E) (s : Session) (f : E) (t : Session)
        (lack : PlayRunsOut E.came E.missed E.went E.gone e s f t)
        → s.state ≡ first_state → SentLegally s.config (sent_before s t lack) }
{
    ends_are_silent();
    sent_legal();
    sent_once();
}

/// If a peer takes all lines that are sent to it, exactly these were added to what its writer
/// holds, if that is known.
pub fn sent_lines_are_held<E: Ends>()
    ensures held { (peer : Peer) (e : E) (s : Session) (f : E) (t : Session) (status : Status)
        (played : History E.came E.went E.gone e s f t status)
        → TookAll peer played
        → Appends (E.held e peer) (E.held f peer) (handed peer played) }
{}

/// A log notes each line that comes and each that a peer takes, in order, once, and nothing else.
/// Of lines that are sent together and not all taken it notes none. If an allocation fails, this
/// holds of all that passed before, including in the same round.
pub fn passed_lines_are_noted<E: Ends + Drop, L: Log + Drop>()
    ensures noted { (e : E × L) (s : Session) (f : E × L) (t : Session) (status : Status)
        (played : History ⟦<Logged<E, L> as Ends>⟧.came ⟦<Logged<E, L> as Ends>⟧.went
        ⟦<Logged<E, L> as Ends>⟧.gone e s f t status)
        → NotesAll L.noted e.1 (passed played) f.1 }
    ensures out_of_memory { (e : E × L) (s : Session) (f : E × L) (t : Session)
        (lack : PlayRunsOut ⟦<Logged<E, L> as Ends>⟧.came ⟦<Logged<E, L> as Ends>⟧.missed
        ⟦<Logged<E, L> as Ends>⟧.went ⟦<Logged<E, L> as Ends>⟧.gone e s f t)
        → NotesAll L.noted e.1 (passed_before lack) f.1 }
{}

/// A text log that is whole has the text of exactly what was noted in it, and one that is not whole
/// has the beginning of such a text, if its bytes are known. `noted`: this holds of a session's
/// log, if it has one, until it is closed.
pub fn whole_logs_have_all_entries<T: Timer + Drop, W: Write + Drop>()
    ensures text { (entries : List Entry) (l m : LogState × Option (List ℕ))
        → NotesAll (notes_text T.shows) l entries m → m.0 ≡ log_state.Whole
        → AppendsEntries T.shows l.1 m.1 entries }
    ensures front { (entries : List Entry) (l m : LogState × Option (List ℕ))
        → NotesAll (notes_text T.shows) l entries m → AppendsFrontOf T.shows l.1 m.1 entries }
    ensures noted { (entries : List Entry) (l : Texts T W) (m : Option (Texts T W))
        → NotesAll ⟦<Option<TextLog<T, W>> as Log>⟧.noted (Some l) entries m
        → (k : Texts T W) × (m ≡ Some k) × NotesAll (notes_text T.shows)
        (l.state, W.contents l.writer) entries (k.state, W.contents k.writer) }
{}

/// A login is logged with its name, and without its password, whatever that is. So the log of a
/// session does not depend on the password. What passed in a session, also in one in which an
/// allocation fails, passes with any other password too, but for the line of the login, if the
/// server takes that login as it took the first. What is kept about the end of the session is the
/// same. And if what passed differs in the passwords of logins alone, every text of one log is a
/// text of the other, and so is every text that is cut short.
pub fn no_password_logged<E: Ends, T: Timer>()
    ensures login { (name password shown : List ℕ) → IsLoginWord name
        → HidesPassword (login_front ++ name ++ 32 ∷ password) shown
        → shown ≡ login_front ++ name ++ codes " ***" }
    ensures session { (d : Config) (e : E) (s : Session) (f : E) (t : Session) (status : Status)
        (played : History E.came E.went E.gone e s f t status)
        → IsLoginWord s.config.name.bytes → DifferInPassword s.config d
        → (other : History E.came (TakesLogin s.config d E.went) (TakesLogin s.config d E.gone)
        e (with_config d s) f (with_config d t) status)
        × DifferInPasswords (passed played) (passed other)
        × ((old new : Ended) → KeptIn played old new → KeptIn other old new) }
    ensures out_of_memory { (d : Config) (e : E) (s : Session) (f : E) (t : Session)
        (lack : PlayRunsOut E.came E.missed E.went E.gone e s f t)
        → IsLoginWord s.config.name.bytes → DifferInPassword s.config d
        → (other : PlayRunsOut E.came E.missed (TakesLogin s.config d E.went)
        (TakesLogin s.config d E.gone) e (with_config d s) f (with_config d t))
        × DifferInPasswords (passed_before lack) (passed_before other)
        × ((old new : Ended) → KeptBefore lack old new → KeptBefore other old new) }
    ensures log { (entries others : List Entry) (text : List ℕ)
        → DifferInPasswords entries others
        → IsLogText T.shows entries text → IsLogText T.shows others text }
    ensures cut { (entries others : List Entry) (text : List ℕ)
        → DifferInPasswords entries others
        → IsLogFront T.shows entries text → IsLogFront T.shows others text }
{
    password_is_in_the_login_alone();
}
