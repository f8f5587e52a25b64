// Reads a line: a letter, then numbers, each after exactly one space.
ghost use Rattle.std.specs.Prelude.{◌≡◌, ℕ, ◌+◌, ◌<◌, ◌≤◌, true, List, [], ◌∷◌, ◌++◌, length, drop, IfOk, vec_len, vec_capacity, MatchResult, slice_index, alloc_error};
ghost use Rattle.std.specs.Char.{is_ascii_digit};
ghost use Rattle.std.specs.List.{prefix_len};
ghost use Rattle.std.specs.Str.{all_ascii_digits};
ghost use Rattle.lines.specs.Lines.{front_digits, number_of, accepts, least, first_letter, read_line, Parsed, from_offset, refused, ReadsBack};

use crate::fault::{LineFault, ParseError};
use crate::letter::Letter;

// The longest line, in bytes.
const LONGEST: usize = 16_384;

// What stands before each number.
const SPACE: u8 = b' ';

// The longest number, in digits.
const DIGITS: usize = 10;

// How many digits stand at the front.
fn leading_digits(bytes: &[u8]) -> usize
    ensures value { result ≡ prefix_len is_ascii_digit bytes.now }
    ensures bound { result ≤ length bytes.now }
{
    bytes
        .iter()
        .take_while(|byte| byte.is_ascii_digit())
        .count()
}

// The number that the digits write, if there are 1 to 10 of them and it is not too large.
#[tactic(auto, using(crate::proofs::Reading::digit_at, crate::proofs::Reading::value_more, crate::proofs::Reading::too_large, crate::proofs::Reading::read_all))]
fn number(digits: &[u8]) -> Option<u32>
    requires { all_ascii_digits digits.now ≡ true }
    ensures { result ≡ number_of digits.now }
{
    if digits.is_empty() || digits.len() > DIGITS {
        return None;
    }
    let mut value: u32 = 0;
    for byte in digits {
        value = value.checked_mul(10)?.checked_add(u32::from(*byte - b'0'))?;
    }
    Some(value)
}

// Whether the letter takes `value` as its field after `count` others.
fn takes(letter: Letter, count: usize, value: u32) -> bool
    ensures { result ≡ accepts letter count value }
{
    match letter {
        Letter::Make => count < 4 && (count > 0 || value == 2 || value == 3),
        Letter::Revoke => count < 1,
        Letter::Deposit | Letter::Withdraw | Letter::Refresh | Letter::Repair | Letter::Open =>
            true,
    }
}

// How many fields the letter cannot do without.
fn fewest(letter: Letter) -> usize
    ensures { result ≡ least letter }
{
    match letter {
        Letter::Make => 4,
        Letter::Deposit | Letter::Withdraw => 1,
        Letter::Revoke | Letter::Repair => 1,
        Letter::Refresh | Letter::Open => 0,
    }
}

// The field after `count` others, whose space is due at `start`: its number and where it ends, or where it is wrong.
fn field(letter: Letter, count: usize, line: &[u8], start: usize) -> Result<(u32, usize), LineFault>
    requires { start < length line.now }
    ensures moves { IfOk result (λ f. (start < f.1) × (f.1 ≤ length line.now)) }
    ensures reads { (ns : List ℕ) → length ns ≡ count → MatchResult result (λ f. from_offset line.now letter ns start ≡ from_offset line.now letter (ns ++ f.0 ∷ []) f.1) (λ e. from_offset line.now letter ns start ≡ refused e) }
{
    if line[start] != SPACE {
        return Err(LineFault::Unreadable(start));
    }
    let from = start + 1;
    let rest = &line[from..];
    let digits = leading_digits(rest);
    match number(&rest[..digits]) {
        Some(value) if takes(letter, count, value) => Ok((value, from + digits)),
        _ => Err(LineFault::Unreadable(from)),
    }
}

// Reads a line. `fields` is cleared, and where the line is read it holds the numbers after the letter.
// What it holds after a fault is left open. Where memory was wanting, the room that `fields` had is full.
#[tactic(auto, using(crate::proofs::Back::reads_back, crate::proofs::Reading::at_end))]
pub fn parse(line: &[u8], fields: &mut Vec<u32>) -> Result<Letter, ParseError>
    ensures memory { result ≡ Err (ParseError.Memory alloc_error) → vec_capacity fields.old ≤ vec_len fields.new }
    ensures back { ReadsBack }
    ensures enough { IfOk result (λ l. least l ≤ vec_len fields.new) }
    ensures tells { Parsed (read_line line.now) result fields.new.items }
{
    fields.clear();
    if line.len() > LONGEST {
        return Err(ParseError::Line(LineFault::Unreadable(LONGEST)));
    }
    let byte = line.first().ok_or(LineFault::Unreadable(0))?;
    let letter = Letter::try_from(*byte)?;
    // The fields are walked by offset, since a fault names the offset of the byte that is wrong.
    let mut start = 1;
    while start < line.len() {
        let (value, end) = field(letter, fields.len(), line, start)?;
        fields.push(value)?;
        start = end;
    }
    if fields.len() < fewest(letter) {
        return Err(ParseError::Line(LineFault::Unreadable(line.len())));
    }
    Ok(letter)
}
