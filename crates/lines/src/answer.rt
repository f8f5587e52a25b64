// The line that answers a line.
ghost use Rattle.std.specs.Prelude.{◌≡◌, IfOk, Some, string_bytes};
ghost use Rattle.lines.specs.Answers.{written};

use std::alloc::{AllocError, Global};
use std::fmt;

// The number of a fault, and its place.
#[derive(Clone, Copy, Debug, PartialEq, Eq)]
pub struct Refusal {
    pub number: u32,
    pub place: usize,
}

#[derive(Clone, Copy, Debug, PartialEq, Eq)]
pub struct AnswerLine {
    // A character, since it is only printed: a question mark where the line has no letter.
    pub letter: char,
    // The number that was asked for, or why there is none.
    pub answer: Result<u32, Refusal>,
}

impl fmt::Display for AnswerLine {
    ghost output = { λ line. Some (written line) };

    fn fmt<W: fmt::Write>(&self, f: &mut fmt::Formatter<W>) -> fmt::Result {
        let letter = self.letter;
        match self.answer {
            Ok(number) => write!(f, "{letter} {number}"),
            Err(Refusal { number, place }) => write!(f, "{letter} ! {number} {place}"),
        }
    }
}

// The line as text, with no newline.
pub fn text(heap: Global, line: &AnswerLine) -> Result<String, AllocError>
    ensures { IfOk result (λ s. string_bytes s ≡ written line.now) }
{
    format!(in heap; "{line}")
}
