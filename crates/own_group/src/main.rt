// A key cabinet over a group of our own: the turns of a valve.
#![tactic(auto)]

mod turns;

use crate::turns::{Turn, Turns};
use custody::cabinet::Cabinet;
use sharing::fault::CabinetFault;
use std::io;

fn show_refusal(rt: &HostRuntime, what: &str, fault: CabinetFault) -> io::Result<()> {
    let number = fault.number();
    let place = fault.place();
    println!(rt; "{what} is refused: {number} at {place}")
}

fn show_deposit(rt: &HostRuntime, answer: Result<u32, CabinetFault>) -> io::Result<()> {
    match answer {
        Ok(epoch) => println!(rt; "deposited, epoch {epoch}"),
        Err(fault) => show_refusal(rt, "the deposit", fault),
    }
}

fn show_opening(rt: &HostRuntime, who: &str, answer: Result<Turn, CabinetFault>) -> io::Result<()> {
    match answer {
        Ok(key) => println!(rt; "{who} open: {key}"),
        Err(fault) => show_refusal(rt, who, fault),
    }
}

fn main(rt: HostRuntime) -> io::Result<()> {
    let mut shares = [Turn::Stay; 12];
    let mut working = [Turn::Stay; 16];
    let scheme = match Cabinet::<Turns>::check(2, 3, shares.len()) {
        Ok(scheme) => scheme,
        Err(fault) => return show_refusal(&rt, "the cabinet", fault),
    };
    let mut cabinet = Cabinet::make(Turns, scheme, 1, &mut shares);
    let coefficients = [Turn::Right, Turn::Back, Turn::Stay, Turn::Left];

    let first = cabinet.deposit(Turn::Right, &coefficients, &mut shares, &mut working);
    show_deposit(&rt, first)?;
    let key = cabinet.open(&[1, 3], &shares, &mut working);
    show_opening(&rt, "holders 1 and 3", key)?;

    let second = cabinet.deposit(Turn::Back, &coefficients, &mut shares, &mut working);
    show_deposit(&rt, second)?;
    let sum = cabinet.open(&[2, 3], &shares, &mut working);
    show_opening(&rt, "holders 2 and 3", sum)?;

    let alone = cabinet.open(&[2], &shares, &mut working);
    show_opening(&rt, "one helper", alone)
}
