ghost use Rattle.std.specs.Prelude.{◌≡◌, ◌==◌, ◌≤◌, ◌-◌, ◌+◌, ◌*◌, ◌↔◌, IsTrue, Contains};
ghost use Rattle.shogi_board.specs.Moves.{steps, rays, turned_for, IsRay};
ghost use Rattle.shogi_board.specs.Directions.{is_forward, is_diagonal, Goes};
ghost use Rattle.shogi_board.specs.declared.kind.Kind.TheVariants.{Knight};

use crate::color::Color;
use crate::kind::Kind;
use std::marker::Model;

// How far a step goes: files and ranks are counted from 2, so that 1 is one less, 2 stays and 3 is
// one more.
#[derive(Clone, Copy)]
pub(crate) struct Direction {
    pub(crate) files: u8,
    pub(crate) ranks: u8,
}

impl Model for Direction {
    ghost use Rattle.shogi_board.specs.Squares.{Direction};

    ghost Value = { Direction };

    ghost view = { λ d. record { files = d.files; ranks = d.ranks } };

    ghost inverse = { λ d. record { files = d.files; ranks = d.ranks } };
}

// Where a square is, seen from another.
#[derive(Clone, Copy)]
pub(crate) struct Bearing {
    pub(crate) direction: Direction,
    pub(crate) distance: u8,
}

pub(crate) const FORWARD: Direction = Direction { files: 2, ranks: 1 };

pub(crate) const BACK: Direction = Direction { files: 2, ranks: 3 };

pub(crate) const LEFT: Direction = Direction { files: 3, ranks: 2 };

pub(crate) const RIGHT: Direction = Direction { files: 1, ranks: 2 };

pub(crate) const FORWARD_LEFT: Direction = Direction { files: 3, ranks: 1 };

pub(crate) const FORWARD_RIGHT: Direction = Direction { files: 1, ranks: 1 };

pub(crate) const BACK_LEFT: Direction = Direction { files: 3, ranks: 3 };

pub(crate) const BACK_RIGHT: Direction = Direction { files: 1, ranks: 3 };

const JUMP_LEFT: Direction = Direction { files: 3, ranks: 0 };

const JUMP_RIGHT: Direction = Direction { files: 1, ranks: 0 };

const JUMPS: [Direction; 2] = [JUMP_LEFT, JUMP_RIGHT];

// The steps of a knight, as black sees them.
pub(crate) fn jumps() -> [Direction; 2]
    ensures { result ≡ steps Knight }
{
    JUMPS
}

impl Kind {
    // Whether a piece of this kind goes so far in that direction, as its side sees it, if nothing
    // is between.
    #[inline(always)]
    pub(crate) fn goes(self, direction: Direction, distance: u8) -> bool
        requires { IsRay direction }
        ensures { IsTrue result ↔ Goes self direction distance }
    {
        distance == 1 && self.has_step(direction) || self.has_ray(direction)
    }

    // Whether it steps in that direction, one of the eight, as its side sees it.
    #[inline(always)]
    fn has_step(self, direction: Direction) -> bool
        requires { IsRay direction }
        ensures { IsTrue result ↔ Contains (steps self) direction }
    {
        match self {
            Kind::Pawn => direction.is_forward(),
            Kind::Silver => direction.leads_forward() || direction.is_diagonal(),
            Kind::Gold | Kind::ProPawn | Kind::ProLance | Kind::ProKnight | Kind::ProSilver =>
                direction.leads_forward() || !direction.is_diagonal(),
            Kind::King => true,
            Kind::Horse => !direction.is_diagonal(),
            Kind::Dragon => direction.is_diagonal(),
            Kind::Lance | Kind::Knight | Kind::Bishop | Kind::Rook => false,
        }
    }

    // Whether it slides in that direction, one of the eight, as its side sees it.
    #[inline(always)]
    fn has_ray(self, direction: Direction) -> bool
        requires { IsRay direction }
        ensures { IsTrue result ↔ Contains (rays self) direction }
    {
        match self {
            Kind::Lance => direction.is_forward(),
            Kind::Bishop | Kind::Horse => direction.is_diagonal(),
            Kind::Rook | Kind::Dragon => !direction.is_diagonal(),
            _ => false,
        }
    }
}

impl Direction {
    fn is_forward(self) -> bool
        ensures { result ≡ is_forward self }
    {
        self.files == 2 && self.ranks == 1
    }

    // Whether the next rank is nearer to the other side.
    fn leads_forward(self) -> bool
        ensures { result ≡ self.ranks == 1 }
    {
        self.ranks == 1
    }

    fn is_diagonal(self) -> bool
        ensures { result ≡ is_diagonal self }
    {
        self.files != 2 && self.ranks != 2
    }

    // By how much a square's place grows with each step, counted from 20.
    pub(crate) fn stride(self) -> usize
        requires { (self.files ≤ 4) × (self.ranks ≤ 4) }
        ensures { result ≡ self.files * 9 + self.ranks }
    {
        self.files as usize * 9 + self.ranks as usize
    }

    // The direction as that side sees it: for white it is turned round.
    pub(crate) fn turned_for(self, color: Color) -> Direction
        requires { (self.files ≤ 4) × (self.ranks ≤ 4) }
        ensures { result ≡ turned_for color self }
    {
        match color {
            Color::Black => self,
            Color::White => Direction {
                files: 4 - self.files,
                ranks: 4 - self.ranks,
            },
        }
    }
}
