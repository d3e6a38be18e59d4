// Why a call gives nothing: a number, and a place counted from 0.
#![tactic(auto)]

ghost use Rattle.std.specs.Prelude.{◌≡◌, Some};
ghost use Rattle.refusals.specs.Refusal.{number_of, place_of, refusal_text};

use std::error::Error;
use std::fmt;

/// The refusals in the order of their numbers, each with the place at fault where it has one.
#[derive(Clone, Copy, Debug, PartialEq, Eq)]
pub enum Refusal {
    Empty,
    TooLarge,
    OutsideSet { line: usize },
    NoRule,
    WrongWidth { line: usize },
    NoCover,
    TooManyCells,
    RuleBroken,
    FootWithoutHead,
    NoCorner { column: usize },
    WouldSplit { cell: usize },
    OutputShort,
    Contradiction,
    RegisterFull,
}

impl Refusal {
    pub fn number(self) -> usize
        ensures { result ≡ number_of self }
    {
        match self {
            Refusal::Empty => 1,
            Refusal::TooLarge => 2,
            Refusal::OutsideSet { line: _ } => 3,
            Refusal::NoRule => 4,
            Refusal::WrongWidth { line: _ } => 5,
            Refusal::NoCover => 6,
            Refusal::TooManyCells => 7,
            Refusal::RuleBroken => 8,
            Refusal::FootWithoutHead => 9,
            Refusal::NoCorner { column: _ } => 10,
            Refusal::WouldSplit { cell: _ } => 11,
            Refusal::OutputShort => 12,
            Refusal::Contradiction => 13,
            Refusal::RegisterFull => 14,
        }
    }

    pub fn place(self) -> usize
        ensures { result ≡ place_of self }
    {
        match self {
            Refusal::OutsideSet { line } => line,
            Refusal::WrongWidth { line } => line,
            Refusal::NoCorner { column } => column,
            Refusal::WouldSplit { cell } => cell,
            _ => 0,
        }
    }
}

impl fmt::Display for Refusal {
    ghost output = { λ e. Some (refusal_text e) };

    fn fmt<W: fmt::Write>(&self, f: &mut fmt::Formatter<W>) -> fmt::Result {
        write!(f, "refused {} {}", self.number(), self.place())
    }
}

impl Error for Refusal {}
