ghost use Rattle.std.specs.Prelude.{◌<◌, ◌≡◌, ◌≢◌, ◌+◌, ◌*◌, ◌-◌, ◌≤◌, List, [], ◌∷◌, map, MatchResult, IfOk, IfErr};
ghost use Rattle.std.specs.List.{flat_map};
ghost use Rattle.shogi_board.specs.Pieces.{opponent};
ghost use Rattle.shogi_board.specs.Reach.{InCheck};
ghost use Rattle.shogi_board.specs.Setup.{position_of};
ghost use Rattle.shogi_board.specs.Sound.{IsSound};
ghost use Rattle.shogi_board.specs.Squares.{place};
ghost use Rattle.shogi_board.specs.Totals.{IsWithinTotals};
ghost use Rattle.shogi_board.specs.declared.setup.SetupFault.TheVariants.{OpponentInCheck};
ghost use Rattle.csa_text.specs.Saying.{Saying, even, rank, pieces, pairs_of};
ghost use Rattle.record_game.specs.declared.fault.Why.TheVariants.{OutOfMemory};
ghost use Rattle.record_game.specs.Items.{sides};
ghost use Rattle.record_game.specs.Laying.{Lays};
ghost use Rattle.record_game.specs.Taking.{LaidOrRefused, Places};
ghost use Rattle.record_game.specs.Order.{endings};
ghost use Rattle.record_game.specs.Placings.{taken_off, pair_placing, cells_placings};

use csa_text::{Pair, Pairs};
use record_game::{OrderFault, Why};
use shogi_board::{Color, Piece, Position, Setup, SetupFault, Square};
use std::marker::Model;

// The start of a record while it is laid out.
#[derive(Clone, Copy)]
pub(crate) struct Laying {
    setup: Setup,
    positioned: bool,
    even: bool,
    ranks: [bool; 9],
}

impl Model for Laying {
    ghost use Rattle.std.specs.Prelude.{◌≡◌, length};
    ghost use Rattle.record_game.specs.Laying.{Laid};

    ghost Value = { Laid };

    ghost view = { λ l. record {
      layout = l.setup;
      positioned = l.positioned;
      even = l.even;
      ranks = l.ranks;
    } };

    ghost invariant = { λ l. length l.ranks ≡ 9 };

    ghost inverse = { λ d. record {
      setup = d.layout;
      positioned = d.positioned;
      even = d.even;
      ranks = d.ranks;
    } };
}

impl Laying {
    // Without a position statement the start is the even one.
    pub(crate) fn new() -> Laying
        ensures { Lays [] result }
    {
        Laying {
            setup: Setup::even(),
            positioned: false,
            even: false,
            ranks: [false; 9],
        }
    }

    // Takes the pairs after `PI` off the even board.
    pub(crate) fn lay_even(&mut self, pairs: Pairs<'_>) -> Result<(), Why>
        ensures taken { (before : List Saying) → Lays before self.old → sides before ≡ []
            → endings before ≡ []
            → LaidOrRefused before (even (pairs_of pairs.entry)) result self.new }
        ensures never { IfErr result (λ why. why ≢ OutOfMemory) }
    {
        if self.positioned {
            return Err(Why::Order(OrderFault::MixedStart));
        }
        if let Err(fault) = take_off_pairs(&mut self.setup, pairs) {
            return Err(Why::Start(fault));
        }
        self.positioned = true;
        self.even = true;
        Ok(())
    }

    // Places the cells of a rank, from file 9 to file 1.
    pub(crate) fn lay_rank(&mut self, number: u8, cells: &[Option<Piece>; 9]) -> Result<(), Why>
        requires low { 1 ≤ number }
        requires high { number ≤ 9 }
        ensures taken { (before : List Saying) → Lays before self.old → sides before ≡ []
            → endings before ≡ []
            → LaidOrRefused before (rank number cells.now) result self.new }
        ensures never { IfErr result (λ why. why ≢ OutOfMemory) }
    {
        if self.even || self.ranks[number as usize - 1] {
            return Err(Why::Order(OrderFault::MixedStart));
        }
        if !self.positioned {
            self.setup = Setup::empty();
        }
        if let Err(fault) = place_cells(&mut self.setup, number, cells) {
            return Err(Why::Start(fault));
        }
        self.positioned = true;
        self.ranks[number as usize - 1] = true;
        Ok(())
    }

    // Places the pairs after the sign of a side.
    pub(crate) fn lay_pieces(&mut self, color: Color, pairs: Pairs<'_>) -> Result<(), Why>
        ensures taken { (before : List Saying) → Lays before self.old → sides before ≡ []
            → endings before ≡ []
            → LaidOrRefused before (pieces color (pairs_of pairs.entry)) result self.new }
        ensures never { IfErr result (λ why. why ≢ OutOfMemory) }
    {
        if !self.positioned {
            self.setup = Setup::empty();
        }
        if let Err(fault) = place_pairs(&mut self.setup, color, pairs) {
            return Err(Why::Start(fault));
        }
        self.positioned = true;
        Ok(())
    }

    // The start with that side to move, or why there is none.
    pub(crate) fn finish(&self, side: Color) -> Result<Position, Why>
        ensures answer { MatchResult result
            (λ p. (InCheck self.now.layout.material.board (opponent side) → ⊥)
            × (p ≡ position_of self.now.layout side))
            (λ why. InCheck self.now.layout.material.board (opponent side)
            × (why ≡ Why.Start OpponentInCheck)) }
        ensures sound { IfOk result (λ p. IsSound p) }
        ensures within { IsWithinTotals self.now.layout.material }
    {
        match self.setup.finish(side) {
            Ok(position) => Ok(position),
            Err(fault) => Err(Why::Start(fault)),
        }
    }
}

fn take_off_pairs(setup: &mut Setup, pairs: Pairs<'_>) -> Result<(), SetupFault>
    ensures { Places setup.old (flat_map taken_off (pairs_of pairs.entry)) result setup.new }
{
    for i in 0..pairs.len() {
        if let Some(pair) = pairs.get(i) {
            take_off_pair(setup, pair)?;
        }
    }
    Ok(())
}

// After `PI` each pair has a square.
fn take_off_pair(setup: &mut Setup, pair: Pair) -> Result<(), SetupFault>
    ensures { Places setup.old (taken_off pair) result setup.new }
{
    match pair {
        Pair::On(square, kind) => setup.take_off(square, kind),
        Pair::InHand(_) | Pair::Rest => Ok(()),
    }
}

fn place_pairs(setup: &mut Setup, color: Color, pairs: Pairs<'_>) -> Result<(), SetupFault>
    ensures { Places setup.old (map (pair_placing color) (pairs_of pairs.entry)) result setup.new }
{
    for i in 0..pairs.len() {
        if let Some(pair) = pairs.get(i) {
            place_pair(setup, color, pair)?;
        }
    }
    Ok(())
}

fn place_pair(setup: &mut Setup, color: Color, pair: Pair) -> Result<(), SetupFault>
    ensures { Places setup.old (pair_placing color pair ∷ []) result setup.new }
{
    match pair {
        Pair::On(square, kind) => setup.place(color, square, kind),
        Pair::InHand(kind) => setup.add_hand(color, kind),
        Pair::Rest => setup.give_rest(color),
    }
}

fn place_cells(setup: &mut Setup, number: u8, cells: &[Option<Piece>; 9]) -> Result<(), SetupFault>
    requires low { 1 ≤ number }
    requires high { number ≤ 9 }
    ensures { Places setup.old (cells_placings 9 number cells.now) result setup.new }
{
    for i in 0..9u8 {
        if let Some(piece) = cells[i as usize] {
            setup.place(piece.color, square_on(9 - i, number), piece.kind)?;
        }
    }
    Ok(())
}

// The square at that place in the order of the squares, from 0 to 80.
pub(crate) fn square_at(n: usize) -> Square
    requires { n < 81 }
    ensures { place result ≡ n }
{
    square_on((n / 9) as u8 + 1, (n % 9) as u8 + 1)
}

pub(crate) fn square_on(file: u8, rank: u8) -> Square
    requires files { (1 ≤ file) × (file ≤ 9) }
    requires ranks { (1 ≤ rank) × (rank ≤ 9) }
    ensures { place result ≡ (file - 1) * 9 + (rank - 1) }
{
    Square::new(file, rank).unwrap()
}
