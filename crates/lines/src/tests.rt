use crate::answer::{AnswerLine, Refusal, text};
use crate::fault::{LineFault, ParseError};
use crate::letter::Letter;
use crate::parse::parse;
use crate::reader::LineReader;
use std::test::Fail;

#[test]
fn faults_have_places(rt: HostRuntime) -> Result<(), Fail> {
    let table = [
        ("", 0),
        ("Q", 0),
        ("K", 1),
        ("Kx", 1),
        ("K 9", 2),
        ("K 1 10 2 3", 2),
        ("K 4 10 2 3", 2),
        ("K 2 10 2", 8),
        ("K 2 10 2 3 4", 11),
        ("D", 1),
        ("D  7", 2),
        ("D 7 ", 4),
        ("D 7 1 2x 3", 7),
        ("D 12345678901", 2),
        ("D 7 4294967296", 4),
    ];
    let mut fields = Vec::new(rt.alloc());
    for (line, place) in table {
        let read = parse(line.as_bytes(), &mut fields);
        let fault = LineFault::Unreadable(place);
        assert_eq!(rt; read, Err(ParseError::Line(fault)), "{}", line);
    }
    Ok(())
}

#[test]
fn lines_are_read(rt: HostRuntime) -> Result<(), Fail> {
    let table: [(&str, Letter, &[u32]); 4] = [
        ("O", Letter::Open, &[]),
        ("O 3 1", Letter::Open, &[3, 1]),
        ("D 7 0 4294967295", Letter::Deposit, &[7, 0, 4_294_967_295]),
        ("K 2 10 2 3", Letter::Make, &[2, 10, 2, 3]),
    ];
    let mut fields = Vec::new(rt.alloc());
    for (line, letter, numbers) in table {
        let read = parse(line.as_bytes(), &mut fields);
        assert_eq!(rt; read, Ok(letter), "{}", line);
        assert_eq!(rt; fields.as_slice(), numbers, "{}", line);
    }
    Ok(())
}

#[test]
fn long_lines_are_refused(rt: HostRuntime) -> Result<(), Fail> {
    let mut reader = LineReader::new(rt.alloc());
    let mut fields = Vec::new(rt.alloc());
    for _ in 0..16_390 {
        assert!(rt; !reader.feed(b'O')?);
    }
    assert!(rt; reader.feed(b'\n')?);
    assert_eq!(rt; reader.line().len(), 16_385);
    let read = parse(reader.line(), &mut fields);
    let fault = LineFault::Unreadable(16_384);
    assert_eq!(rt; read, Err(ParseError::Line(fault)));
    reader.clear();
    assert!(rt; reader.is_empty());
    Ok(())
}

#[test]
fn answers_are_written(rt: HostRuntime) -> Result<(), Fail> {
    let fault = LineFault::Unreadable(2);
    let number = fault.number();
    let place = fault.place();
    let table = [
        ('D', Ok(7), "D 7"),
        ('K', Err(Refusal { number, place }), "K ! 29 2"),
    ];
    for (letter, answer, shown) in table {
        let line = AnswerLine { letter, answer };
        assert_eq!(rt; text(rt.alloc(), &line)?.as_str(), shown);
    }
    Ok(())
}
