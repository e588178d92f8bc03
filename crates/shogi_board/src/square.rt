ghost use Rattle.std.specs.Prelude.{◌≡◌, true, ℕ, ◌+◌, ◌*◌, ◌-◌, ◌<◌, ◌≤◌, MatchOption, ◌⊎◌, ◌↔◌, IsTrue};

use crate::direction::{Bearing, Direction};

/// One of the 81 squares: its file from 1, at black's right, to 9, and its rank from 1, the
/// farthest from black, to 9.
///
/// Squares are ordered by file and then by rank: 11, 12, .. 19, 21, .. 99.
#[derive(Clone, Copy, Debug, PartialEq, Eq, PartialOrd, Ord)]
pub struct Square {
    file: u8,
    rank: u8,
    pub ghost on_board: { (1 ≤ file) × (file ≤ 9) × (1 ≤ rank) × (rank ≤ 9) },
}

impl Square {
    ghost use Rattle.shogi_board.specs.Directions.{IsDirection, IsDistance, IsInLine, IsNowhere, Lies};
    ghost use Rattle.shogi_board.specs.Moves.{IsRay};
    ghost use Rattle.shogi_board.specs.Squares.{Direction, file_of, rank_of, place, IsAway};

    /// The square on that file and rank, or None if either lies outside 1 to 9.
    pub fn new(file: u8, rank: u8) -> Option<Square>
        ensures answer { MatchOption result
            ((file < 1) ⊎ (9 < file) ⊎ (rank < 1) ⊎ (9 < rank))
            (λ s. (file_of s ≡ file) × (rank_of s ≡ rank)) }
    {
        if 1 <= file && file <= 9 && 1 <= rank && rank <= 9 {
            Some(Square { file, rank })
        } else {
            None
        }
    }

    /// Its file, from 1 to 9.
    pub fn file(self) -> u8
        ensures value { result ≡ file_of self }
        ensures bounds { (1 ≤ result) × (result ≤ 9) }
    {
        self.file
    }

    /// Its rank, from 1 to 9.
    pub fn rank(self) -> u8
        ensures value { result ≡ rank_of self }
        ensures bounds { (1 ≤ result) × (result ≤ 9) }
    {
        self.rank
    }

    // Its place in the order of the squares, from 0 to 80.
    pub(crate) fn place(self) -> usize
        ensures value { result ≡ place self }
        ensures bound { result < 81 }
    {
        (self.file as usize - 1) * 9 + (self.rank as usize - 1)
    }

    // The square at that place in the order of the squares, from 0 to 80.
    pub(crate) fn at_place(n: usize) -> Square
        requires low { n < 81 }
        ensures value { place result ≡ n }
    {
        Square {
            file: (n / 9) as u8 + 1,
            rank: (n % 9) as u8 + 1,
        }
    }

    // Whether the other square lies `times` the direction away.
    pub(crate) fn is_away(self, direction: Direction, times: u8, other: Square) -> bool
        requires small { (direction.files ≤ 4) × (direction.ranks ≤ 4) × (times ≤ 9) }
        ensures { IsTrue result ↔ IsAway self direction times other }
    {
        other.file + times * 2 == self.file + times * direction.files
            && other.rank + times * 2 == self.rank + times * direction.ranks
    }

    // The square that lies `times` the direction away, if that is on the board.
    pub(crate) fn away(self, direction: Direction, times: u8) -> Option<Square>
        requires small { (direction.files ≤ 4) × (direction.ranks ≤ 4) × (times ≤ 9) }
        ensures { MatchOption result
            ((s : Square) → IsAway self direction times s → ⊥)
            (λ s. IsAway self direction times s) }
    {
        let file = self.file + times * direction.files;
        let rank = self.rank + times * direction.ranks;
        if file <= 2 * times || rank <= 2 * times {
            return None;
        }
        Square::new(file - 2 * times, rank - 2 * times)
    }

    // The direction in which the other square lies, if that is on its rank, file or diagonal.
    fn direction_to(self, other: Square) -> Direction
        ensures bounds { (1 ≤ result.files) × (result.files ≤ 3) × (1 ≤ result.ranks)
            × (result.ranks ≤ 3) }
        ensures still { result.files ≡ 2 → result.ranks ≡ 2
            → (file_of self ≡ file_of other) × (rank_of self ≡ rank_of other) }
        ensures only { IsDirection self other result }
    {
        Direction {
            files: step(self.file, other.file),
            ranks: step(self.rank, other.rank),
        }
    }

    // The direction in which the other square lies and how far, if it is another one, on the rank,
    // file or diagonal.
    #[inline(always)]
    pub(crate) fn towards(self, other: Square) -> Option<Bearing>
        ensures { MatchOption result
            (IsNowhere self other) (λ found. Lies self other found.direction found.distance) }
    {
        let distance = self.distance(other);
        if distance == 0 || !self.lines_up(other) {
            return None;
        }
        Some(Bearing {
            direction: self.direction_to(other),
            distance,
        })
    }

    // How many squares lie in that direction, up to the edge.
    pub(crate) fn room(self, direction: Direction) -> u8
        requires { IsRay direction }
        ensures bound { result ≤ 8 }
        ensures there { (n : ℕ) → n ≤ result → (s : Square) × IsAway self direction n s }
        ensures only { (n : ℕ) (s : Square) → IsAway self direction n s → n ≤ result }
    {
        let files = room(self.file, direction.files);
        let ranks = room(self.rank, direction.ranks);
        if files < ranks { files } else { ranks }
    }

    // Whether the other square lies on the rank, the file or a diagonal, or is the same.
    fn lines_up(self, other: Square) -> bool
        ensures { IsTrue result ↔ IsInLine self other }
    {
        let files = self.file.abs_diff(other.file);
        let ranks = self.rank.abs_diff(other.rank);
        if files == 0 || ranks == 0 {
            return true;
        }
        files == ranks
    }

    // How many files or ranks lie from the one square to the other, whichever are more.
    fn distance(self, other: Square) -> u8
        ensures bound { result ≤ 8 }
        ensures same { file_of self ≡ file_of other → rank_of self ≡ rank_of other → result ≡ 0 }
        ensures only { IsDistance self other result }
    {
        let files = self.file.abs_diff(other.file);
        let ranks = self.rank.abs_diff(other.rank);
        if files < ranks { ranks } else { files }
    }
}

// The step that leads from the one number towards the other.
fn step(from: u8, to: u8) -> u8
    ensures bounds { (1 ≤ result) × (result ≤ 3) }
    ensures still { result ≡ 2 → from ≡ to }
    ensures only { (times step : ℕ) → 1 ≤ step → step ≤ 3 → 1 ≤ times
        → to + times * 2 ≡ from + times * step → result ≡ step }
{
    if to < from {
        1
    } else if to == from {
        2
    } else {
        3
    }
}

// How many steps lead from the number to 1 or 9; 8 if the step stays.
fn room(from: u8, step: u8) -> u8
    requires number { (1 ≤ from) × (from ≤ 9) }
    requires step { (1 ≤ step) × (step ≤ 3) }
    ensures back { step ≡ 1 → result + 1 ≡ from }
    ensures still { step ≡ 2 → result ≡ 8 }
    ensures on { step ≡ 3 → from + result ≡ 9 }
{
    if step < 2 {
        from - 1
    } else if step == 2 {
        8
    } else {
        9 - from
    }
}
