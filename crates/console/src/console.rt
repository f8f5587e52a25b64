ghost use Rattle.std.specs.Prelude.{◌≡◌, IfOk, None, OnErr};
ghost use Rattle.std.specs.Option.{option_map};
ghost use Rattle.lines.specs.Lines.{first_letter, read_line};
ghost use Rattle.console.specs.Requests.{asked, called};
ghost use Rattle.console.specs.Held.{holding};
ghost use Rattle.console.specs.Responses.{heading_of, IfAnswered, OnMemory, Calls, Makes, Does, Follows, Responds};

use crate::fault::{ConsoleFault, Trouble};
use crate::held::Held;
use crate::request::{Call, Plan, Request};
use lines::answer::{AnswerLine, Refusal};
use lines::letter::Letter;
use lines::parse::parse;
use sharing::scheme::Scheme;
use std::alloc::{AllocError, Global};

// The letter that the answer to a line begins with.
fn heading(line: &[u8]) -> char
    ensures { result ≡ heading_of (first_letter line.now) }
{
    let byte = line.first();
    byte.and_then(|byte| Letter::try_from(*byte).ok())
        .map_or('?', char::from)
}

// A cabinet where there is none yet.
#[tactic(auto, using(crate::proofs::Answering::made_cabinet))]
fn make(heap: Global, held: &mut Option<Held>, plan: Plan) -> Result<u32, Trouble>
    ensures made { IfAnswered result (λ a. Makes (option_map holding held.old) plan a (option_map holding held.new)) }
    ensures kept { OnMemory result (held.new ≡ held.old) }
{
    if held.is_some() {
        return Err(Trouble::from(ConsoleFault::CabinetExists));
    }
    let scheme = Scheme::new(plan.t, plan.n)?;
    *held = Some(Held::make(heap, plan.kind, plan.modulus, scheme)?);
    Ok(0)
}

// A call on the cabinet that is held.
fn call(held: &mut Option<Held>, call: Call) -> Result<u32, ConsoleFault>
    ensures { Calls (option_map holding held.old) (called call.entry) result (option_map holding held.new) }
{
    match held {
        Some(held) => Ok(held.obey(call)?),
        None => Err(ConsoleFault::NoCabinet),
    }
}

// Does what is asked for.
fn obey(heap: Global, held: &mut Option<Held>, request: Request) -> Result<u32, Trouble>
    ensures does { IfAnswered result (λ a. Does (option_map holding held.old) (asked request.entry) a (option_map holding held.new)) }
    ensures kept { OnMemory result (held.new ≡ held.old) }
{
    match request {
        Request::Make(plan) => make(heap, held, plan),
        Request::Call(asked) => Ok(call(held, asked)?),
    }
}

// A console: the cabinet that lines speak of, once there is one.
#[derive(Drop)]
pub struct Console {
    fields: Vec<u32>,
    held: Option<Held>,
}

impl Console {
    // No cabinet yet.
    pub fn new(heap: Global) -> Self
        ensures { result.held ≡ None }
    {
        Console {
            fields: Vec::new(heap),
            held: None,
        }
    }

    // Does what a line says.
    fn follow(&mut self, heap: Global, line: &[u8]) -> Result<u32, Trouble>
        ensures follows { IfAnswered result (λ a. Follows (option_map holding self.old.held) (read_line line.now) a (option_map holding self.new.held)) }
        ensures kept { OnMemory result (self.new.held ≡ self.old.held) }
    {
        let letter = parse(line, &mut self.fields)?;
        let request = Request::new(letter, &self.fields);
        obey(heap, &mut self.held, request)
    }

    // Does what a line says, and answers it. An `Err` is want of memory, and changes no cabinet.
    pub fn respond(&mut self, heap: Global, line: &[u8]) -> Result<AnswerLine, AllocError>
        ensures answer { IfOk result (λ a. Responds (option_map holding self.old.held) line.now a.letter a.answer (option_map holding self.new.held)) }
        ensures kept { OnErr result (self.new.held ≡ self.old.held) }
    {
        let letter = heading(line);
        let answer = match self.follow(heap, line) {
            Ok(number) => Ok(number),
            Err(Trouble::Refused(fault)) => Err(Refusal::from(fault)),
            Err(Trouble::Memory(error)) => return Err(error),
        };
        Ok(AnswerLine { letter, answer })
    }
}
