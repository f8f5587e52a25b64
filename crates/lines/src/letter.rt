// The letter that a line begins with.
ghost use Rattle.lines.specs.Letters.{Shows, Reads};

use crate::fault::LineFault;

#[derive(Clone, Copy, Debug, PartialEq, Eq)]
pub enum Letter {
    // K: makes a cabinet, from a group, a modulus, a threshold and a number of holders.
    Make,
    // D: deposits a key, with coefficients.
    Deposit,
    // W: withdraws a key, with coefficients.
    Withdraw,
    // N: refreshes the shares, with coefficients.
    Refresh,
    // S: revokes a holder.
    Revoke,
    // M: repairs a holder, with helpers.
    Repair,
    // O: opens, with helpers.
    Open,
}

// The character that a line with this letter begins with.
impl From<Letter> for char {
    ghost from_gives = { Shows };

    fn from(letter: Letter) -> char {
        match letter {
            Letter::Make => 'K',
            Letter::Deposit => 'D',
            Letter::Withdraw => 'W',
            Letter::Refresh => 'N',
            Letter::Revoke => 'S',
            Letter::Repair => 'M',
            Letter::Open => 'O',
        }
    }
}

// The letter that a byte stands for. A line that begins with another byte is wrong at that byte.
impl TryFrom<u8> for Letter {
    type Error = LineFault;

    ghost try_from_gives = { Reads };

    fn try_from(byte: u8) -> Result<Letter, LineFault> {
        match byte {
            b'K' => Ok(Letter::Make),
            b'D' => Ok(Letter::Deposit),
            b'W' => Ok(Letter::Withdraw),
            b'N' => Ok(Letter::Refresh),
            b'S' => Ok(Letter::Revoke),
            b'M' => Ok(Letter::Repair),
            b'O' => Ok(Letter::Open),
            _ => Err(LineFault::Unreadable(0)),
        }
    }
}
