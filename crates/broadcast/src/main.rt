// Carries two triples through a group of four controllers of which controller 3 is marked: one that controller 0 offers,
// and one that only controller 3 sends, to some; once by the seal carriage and once by the echo carriage. Prints phase
// by phase what was sent, what was refused and who accepted.
#![tactic(auto)]

ghost use Rattle.broadcast.specs.Holders.{HoldersBelow, holds};
ghost use Rattle.std.specs.Prelude.{◌≡◌};

use carriage::{Carriage, Frame, Triple};
use echo::Echo;
use faults::{CarriageFault, Fault};
use groups::{Group, Marks};
use seal::Seal;
use sets::ControllerSet;
use std::io;

// Whether `q` is correct and has accepted the triple.
fn is_holder<C: Carriage>(c: &C, q: u16, x: Triple) -> bool
    ensures { result ≡ holds (C.Carriage.model c.now) x q }
{
    c.held(q, x).unwrap_or(false)
}

// The correct controllers that have accepted the triple.
fn holders<C: Carriage>(c: &C, x: Triple) -> ControllerSet
    ensures { HoldersBelow (C.Carriage.model c.now).group.n (C.Carriage.model c.now) x result }
{
    ControllerSet::below(c.group().n()).filter(|q| is_holder(c, q, x))
}

fn refused(rt: &HostRuntime, fault: CarriageFault) -> io::Result<()> {
    let number = fault.number();
    let layer = fault.layer();
    println!(rt; ", refused: {number} {layer}, {fault}")
}

fn offer<C: Carriage>(rt: &HostRuntime, c: &mut C, x: Triple) -> io::Result<()> {
    let from = x.origin;
    print!(rt; "  {from} offers {x}")?;
    match c.offer(x) {
        Ok(()) => println!(rt; ""),
        Err(fault) => refused(rt, fault),
    }
}

fn inject<C: Carriage>(rt: &HostRuntime, c: &mut C, f: Frame) -> io::Result<()> {
    let from = f.from;
    let to = f.to;
    let letter = f.letter();
    let x = f.triple;
    print!(rt; "  {from} sends {letter} of {x} to {to}")?;
    match c.inject(f) {
        Ok(()) => println!(rt; ""),
        Err(fault) => refused(rt, fault),
    }
}

// Who holds the triple now and did not before.
fn report<C: Carriage>(
    rt: &HostRuntime,
    c: &C,
    x: Triple,
    before: ControllerSet,
) -> io::Result<()> {
    let newly = holders(c, x).without(before);
    if newly.is_empty() {
        return Ok(());
    }
    print!(rt; "  {x} accepted by")?;
    // a loop, since each member is printed and printing may fail
    for q in 0..16u16 {
        if newly.contains(q) {
            print!(rt; " {q}")?;
        }
    }
    println!(rt; "")
}

// Turns the phase; the answer says whether the turn was taken.
fn turn<C: Carriage>(rt: &HostRuntime, c: &mut C, x: Triple, y: Triple) -> io::Result<bool> {
    let phase = c.phase();
    let had_x = holders(c, x);
    let had_y = holders(c, y);
    print!(rt; "turn of phase {phase}")?;
    if let Err(fault) = c.turn() {
        refused(rt, fault)?;
        return Ok(false);
    }
    println!(rt; "")?;
    report(rt, c, x, had_x)?;
    report(rt, c, y, had_y)?;
    Ok(true)
}

const OFFERED: Triple = Triple {
    origin: 0,
    place: 0,
    round: 1,
};

const SENT: Triple = Triple {
    origin: 3,
    place: 1,
    round: 1,
};

// Controller 0 offers one triple; controller 3 may not offer the other, and sends it to controllers 0 and 1 alone.
fn first_phase<C: Carriage>(rt: &HostRuntime, c: &mut C, letter: u8) -> io::Result<()> {
    println!(rt; "phase 1")?;
    offer(rt, c, OFFERED)?;
    offer(rt, c, SENT)?;
    inject(rt, c, Frame::new(3, 0, letter, SENT))?;
    inject(rt, c, Frame::new(3, 1, letter, SENT))
}

// Frames that are refused, each for another cause, and one that forges a triple of controller 0.
fn refusals<C: Carriage>(rt: &HostRuntime, c: &mut C, letter: u8) -> io::Result<()> {
    let forged = Triple {
        origin: 0,
        place: 1,
        round: 1,
    };
    let unlisted = Triple {
        origin: 3,
        place: 2,
        round: 1,
    };
    inject(rt, c, Frame::new(1, 2, letter, SENT))?;
    inject(rt, c, Frame::new(3, 3, letter, SENT))?;
    inject(rt, c, Frame::new(3, 2, b'x', SENT))?;
    inject(rt, c, Frame::new(3, 2, letter, unlisted))?;
    inject(rt, c, Frame::new(3, 2, letter, forged))
}

// Turns until a turn is refused.
fn turns<C: Carriage>(rt: &HostRuntime, c: &mut C) -> io::Result<()> {
    // a loop, since each turn changes the carriage
    for _ in 0..6 {
        if !turn(rt, c, OFFERED, SENT)? {
            break;
        }
    }
    Ok(())
}

fn show<C: Carriage>(rt: &HostRuntime, c: &mut C, letter: u8) -> io::Result<()> {
    first_phase(rt, c, letter)?;
    refusals(rt, c, letter)?;
    turns(rt, c)
}

fn run(rt: &HostRuntime) -> anyhow::Result<()> {
    let marks = Marks::none().with(3)?;
    let group = Group::new(4, 1, marks)?;
    let mut seal = Seal::new(group, 2)?;
    let mut echo = Echo::new(group, 2)?;
    println!(rt; "controllers 0 to 3, controller 3 marked, lists of 2 values")?;
    println!(rt; "the seal carriage")?;
    show(rt, &mut seal, b's')?;
    println!(rt; "the echo carriage")?;
    show(rt, &mut echo, b'i')?;
    Ok(())
}

fn main(rt: HostRuntime) -> anyhow::Result<()> {
    run(&rt)
}
