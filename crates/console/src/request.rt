// What a line asks for: its letter, with each of its numbers in its place.
ghost use Rattle.std.specs.Prelude.{◌≡◌, ◌≤◌, length};
ghost use Rattle.lines.specs.Lines.{least};
ghost use Rattle.console.specs.Requests.{kind_of, asking_of, asked};

use lines::letter::Letter;

// The group of a new cabinet.
#[derive(Clone, Copy)]
pub enum Kind {
    Sums,
    Units,
}

impl Kind {
    // The group that K names by a number, as the lines' format has it: 3 is units, and the other sums.
    pub(crate) fn named(group: u32) -> Self
        ensures { result ≡ kind_of group }
    {
        match group {
            3 => Kind::Units,
            _ => Kind::Sums,
        }
    }
}

// A cabinet that is asked for.
#[derive(Clone, Copy)]
pub struct Plan {
    pub kind: Kind,
    pub modulus: u32,
    pub t: u32,
    pub n: u32,
}

// A call on the cabinet.
#[derive(Clone, Copy)]
pub enum Call<'a> {
    Deposit { key: u32, coefficients: &'a [u32] },
    Withdraw { key: u32, coefficients: &'a [u32] },
    Refresh { coefficients: &'a [u32] },
    Revoke { holder: u32 },
    Repair { holder: u32, helpers: &'a [u32] },
    Open { helpers: &'a [u32] },
}

#[derive(Clone, Copy)]
pub enum Request<'a> {
    Make(Plan),
    Call(Call<'a>),
}

impl<'a> Request<'a> {
    // What a letter asks for with these numbers, which are no fewer than it needs.
    pub(crate) fn new(letter: Letter, fields: &'a [u32]) -> Self
        requires { least letter ≤ length fields.now }
        ensures { asked result ≡ asking_of letter fields.now }
    {
        match letter {
            Letter::Make => Request::Make(Plan {
                kind: Kind::named(fields[0]),
                modulus: fields[1],
                t: fields[2],
                n: fields[3],
            }),
            Letter::Deposit => Request::Call(Call::Deposit {
                key: fields[0],
                coefficients: &fields[1..],
            }),
            Letter::Withdraw => Request::Call(Call::Withdraw {
                key: fields[0],
                coefficients: &fields[1..],
            }),
            Letter::Refresh => Request::Call(Call::Refresh {
                coefficients: fields,
            }),
            Letter::Revoke => Request::Call(Call::Revoke { holder: fields[0] }),
            Letter::Repair => Request::Call(Call::Repair {
                holder: fields[0],
                helpers: &fields[1..],
            }),
            Letter::Open => Request::Call(Call::Open { helpers: fields }),
        }
    }
}
