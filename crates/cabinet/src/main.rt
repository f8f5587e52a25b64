// The console program: reads lines from standard input, and answers each as soon as it is read.
#![tactic(auto)]

use console::console::Console;
use lines::reader::LineReader;
use std::io::Read;

// Answers the line that the reader holds, and makes the reader ready for the next.
fn answer(rt: &HostRuntime, console: &mut Console, reader: &mut LineReader) -> anyhow::Result<()> {
    let line = console.respond(rt.alloc(), reader.line())?;
    reader.clear();
    println!(rt; "{line}")?;
    Ok(())
}

// Reads to the end of the input; a last line without a newline counts.
fn run(rt: &HostRuntime) -> anyhow::Result<()> {
    let mut console = Console::new(rt.alloc());
    let mut reader = LineReader::new(rt.alloc());
    // No BufReader: it would take memory from the heap before the first line, and a step of its own for each byte.
    let mut input = rt.stdin();
    let mut buffer = [0u8; 4096];
    for _ in 0..u64::MAX {
        let count = input.read(&mut buffer)?;
        if count == 0 {
            break;
        }
        for byte in &buffer[..count] {
            if reader.feed(*byte)? {
                answer(rt, &mut console, &mut reader)?;
            }
        }
    }
    if !reader.is_empty() {
        answer(rt, &mut console, &mut reader)?;
    }
    Ok(())
}

fn main(rt: HostRuntime) -> anyhow::Result<()> {
    run(&rt)
}
