// The turns of a valve, as a group that a cabinet can be made over.
ghost use Rattle.std.specs.Prelude.{◌≡◌, Some};
ghost use Rattle.own_group.specs.Turns.{next, then, undone, is_stay, name_of, turns};
ghost use Rattle.own_group.specs.Quarters.{turns_laws};

use groups::group::Group;
use std::fmt;

// A turn of the valve by quarters. Two quarters one way are two the other way.
#[derive(Clone, Copy, PartialEq, Eq)]
pub enum Turn {
    Stay,
    Right,
    Back,
    Left,
}

impl Turn {
    // One quarter further to the right.
    fn next(self) -> Turn
        ensures { result ≡ next self }
    {
        match self {
            Turn::Stay => Turn::Right,
            Turn::Right => Turn::Back,
            Turn::Back => Turn::Left,
            Turn::Left => Turn::Stay,
        }
    }

    // This turn, and then another.
    pub fn then(self, other: Turn) -> Turn
        ensures { result ≡ then self other }
    {
        match other {
            Turn::Stay => self,
            Turn::Right => self.next(),
            Turn::Back => self.next().next(),
            Turn::Left => self.next().next().next(),
        }
    }

    // The turn that takes this one back.
    pub fn undone(self) -> Turn
        ensures { result ≡ undone self }
    {
        match self {
            Turn::Stay => Turn::Stay,
            Turn::Right => Turn::Left,
            Turn::Back => Turn::Back,
            Turn::Left => Turn::Right,
        }
    }

    pub fn is_stay(self) -> bool
        ensures { result ≡ is_stay self }
    {
        self == Turn::Stay
    }

    pub fn name(self) -> &'static str
        ensures { result.now ≡ name_of self }
    {
        match self {
            Turn::Stay => "stay",
            Turn::Right => "right",
            Turn::Back => "back",
            Turn::Left => "left",
        }
    }
}

impl fmt::Display for Turn {
    ghost output = { λ turn. Some (name_of turn) };

    fn fmt<W: fmt::Write>(&self, f: &mut fmt::Formatter<W>) -> fmt::Result {
        f.write_str(self.name())
    }
}

// The turns of a valve, one after the other. Every turn is valid.
#[derive(Clone, Copy)]
pub struct Turns;

impl Group for Turns {
    type Element = Turn;

    ghost ops = { λ _. turns };

    ghost laws = { λ g. turns_laws };

    fn is_valid(&self, _a: Turn) -> bool {
        true
    }

    fn same(&self, a: Turn, b: Turn) -> bool {
        a.then(b.undone()).is_stay()
    }

    fn zero(&self) -> Turn {
        Turn::Stay
    }

    fn sum(&self, a: Turn, b: Turn) -> Turn {
        a.then(b)
    }

    fn negative(&self, a: Turn) -> Turn {
        a.undone()
    }
}
