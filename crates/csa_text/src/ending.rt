ghost use Rattle.std.specs.Prelude.{◌≡◌, MatchOption};
ghost use Rattle.csa_text.specs.Endings.{ending_name};

/// How a game ended according to its record: the special moves of CSA V2.2 that are read.
#[derive(Clone, Copy, Debug, PartialEq, Eq)]
pub enum Ending {
    /// `%TORYO`: the side to move resigned.
    Toryo,
    /// `%CHUDAN`: the game was interrupted.
    Chudan,
    /// `%SENNICHITE`: a draw by repetition.
    Sennichite,
    /// `%TIME_UP`: the side to move ran out of time.
    TimeUp,
    /// `%ILLEGAL_MOVE`: an illegal move.
    IllegalMove,
    /// `%+ILLEGAL_ACTION`: an illegal action of black.
    BlackIllegalAction,
    /// `%-ILLEGAL_ACTION`: an illegal action of white.
    WhiteIllegalAction,
    /// `%JISHOGI`: a draw by entering kings.
    Jishogi,
    /// `%KACHI`: the side to move declared a win by its entering king.
    Kachi,
    /// `%HIKIWAKE`: the side to move declared a draw by its entering king.
    Hikiwake,
    /// `%MAX_MOVES`: a draw by the number of moves.
    MaxMoves,
    /// `%MATTA`: a move was taken back.
    Matta,
    /// `%TSUMI`: mate.
    Tsumi,
    /// `%FUZUMI`: no mate.
    Fuzumi,
    /// `%ERROR`: an error.
    Error,
}

const ENDINGS: [Ending; 15] = [
    Ending::Toryo,
    Ending::Chudan,
    Ending::Sennichite,
    Ending::TimeUp,
    Ending::IllegalMove,
    Ending::BlackIllegalAction,
    Ending::WhiteIllegalAction,
    Ending::Jishogi,
    Ending::Kachi,
    Ending::Hikiwake,
    Ending::MaxMoves,
    Ending::Matta,
    Ending::Tsumi,
    Ending::Fuzumi,
    Ending::Error,
];

impl Ending {
    /// The text after the `%` of this ending.
    pub fn name(self) -> &'static str
        ensures name { result.now ≡ ending_name self }
    {
        match self {
            Ending::Toryo => "TORYO",
            Ending::Chudan => "CHUDAN",
            Ending::Sennichite => "SENNICHITE",
            Ending::TimeUp => "TIME_UP",
            Ending::IllegalMove => "ILLEGAL_MOVE",
            Ending::BlackIllegalAction => "+ILLEGAL_ACTION",
            Ending::WhiteIllegalAction => "-ILLEGAL_ACTION",
            Ending::Jishogi => "JISHOGI",
            Ending::Kachi => "KACHI",
            Ending::Hikiwake => "HIKIWAKE",
            Ending::MaxMoves => "MAX_MOVES",
            Ending::Matta => "MATTA",
            Ending::Tsumi => "TSUMI",
            Ending::Fuzumi => "FUZUMI",
            Ending::Error => "ERROR",
        }
    }
}

// The ending with this name, the text after the `%`.
pub(crate) fn read_ending(name: &[u8]) -> Option<Ending>
    ensures { MatchOption result
        ((ending : Ending) → name.now ≡ ending_name ending → ⊥)
        (λ ending. name.now ≡ ending_name ending) }
{
    for ending in ENDINGS {
        if ending.name().as_bytes() == name {
            return Some(ending);
        }
    }
    None
}
