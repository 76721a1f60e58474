#![tactic(auto)]

// Loads the nets of three published systems, and looks them up at addresses whose names the published paths give.
mod look;
mod looks;

use looks::{look_line, read_look};
use model::names::Name;
use nets::net::Net;
use space::socket::Socket;
use std::{fmt, fs};

// The longest list of a net over an empty place: a walk meets at most 64 names.
const SLOTS: usize = 64;

fn main(rt: HostRuntime) -> anyhow::Result<()> {
    for system in ["omap4460", "desktop", "server"] {
        check_system(&rt, system)?;
    }
    Ok(())
}

// Loads SYSTEM.frames of this folder, and tells how many looks of SYSTEM.looks are as expected.
fn check_system(rt: &HostRuntime, system: &str) -> anyhow::Result<()> {
    let frames = fs::read_to_string(rt, format!(in rt.alloc(); "{system}.frames")?)?;
    let looks = fs::read_to_string(rt, format!(in rt.alloc(); "{system}.looks")?)?;
    let mut net = Net::new(0, Socket);
    if let Err(fault) = net.load(frames.as_bytes()) {
        println!(rt; "{system}: {fault}")?;
        return Ok(());
    }
    let count = frames.lines().count();
    let tally = check_looks(rt, &net, looks.as_str())?;
    println!(rt; "{system}: {count} frames, {tally}")?;
    Ok(())
}

// How many lines are as expected, and how many are not.
#[derive(Clone, Copy, Default)]
struct Tally {
    good: u64,
    bad: u64,
}

impl fmt::Display for Tally {
    fn fmt<W: fmt::Write>(&self, f: &mut fmt::Formatter<W>) -> fmt::Result {
        let Tally { good, bad } = *self;
        write!(f, "{good} looks as expected")?;
        if bad > 0 {
            write!(f, ", {bad} not")?;
        }
        Ok(())
    }
}

fn check_looks(rt: &HostRuntime, net: &Net<Socket>, looks: &str) -> anyhow::Result<Tally> {
    let mut tally = Tally::default();
    for line in looks.lines() {
        let count = if check_look(rt, net, line)? {
            &mut tally.good
        } else {
            &mut tally.bad
        };
        *count = count.saturating_add(1);
    }
    Ok(tally)
}

// A yes or no, not a flag: whether a line is its look's own line; where it is not, that is told.
fn check_look(rt: &HostRuntime, net: &Net<Socket>, line: &str) -> anyhow::Result<bool> {
    let Some(look) = read_look(line) else {
        tell(rt, line, "nothing, as the line begins with no look")?;
        return Ok(false);
    };
    let mut slots = [Name::default(); SLOTS];
    let found = look_line(rt.alloc(), net, look, &mut slots)?;
    if found.as_str() == line {
        return Ok(true);
    }
    tell(rt, line, found.as_str())?;
    Ok(false)
}

fn tell(rt: &HostRuntime, expected: &str, found: &str) -> anyhow::Result<()> {
    println!(rt; "expected {expected}")?;
    println!(rt; "found    {found}")?;
    Ok(())
}
