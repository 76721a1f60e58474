#![tactic(auto)]

// A net from a text of frames: written back, flattened into rows, or compared as two of its nodes see it.
mod flat;

use anyhow::anyhow;
use flat::{FlatError, SLOTS, flat_text};
use flatten::compare::compare;
use model::names::Name;
use nets::net::Net;
use space::socket::Socket;
use std::env;
use std::io::{Read, Write};
use std::process::ExitCode;

// No net's text is longer: an entry, 64 accept blocks, 128 map blocks and 32 overlays.
const LONGEST: usize = 5 + 37 * 64 + 55 * 128 + 7 * 32;

const USAGE: &str =
    "usage: netfile [text | rows [NODE] | compare NODE NODE] < FRAMES, where a NODE is 0 to 31";

// What is asked for.
#[derive(Drop)]
enum Task {
    Both,
    Text,
    Rows(Option<u8>),
    Compare(u8, u8),
}

// Loads the text and does the task; a text that is refused is told in one line.
fn main(rt: HostRuntime) -> anyhow::Result<ExitCode> {
    let task = read_task(&rt)?;
    let mut text = Vec::new(rt.alloc());
    let _ = rt.stdin().read_to_end(&mut text)?;
    let mut net = Net::new(0, Socket);
    if let Err(fault) = net.load(text.as_slice()) {
        eprintln!(rt; "{fault}")?;
        return Ok(ExitCode::FAILURE);
    }
    match task {
        Task::Both => {
            print_text(&rt, &net)?;
            println!(rt; "")?;
            print_rows(&rt, &net)?;
        }
        Task::Text => print_text(&rt, &net)?,
        Task::Rows(node) => {
            if let Some(node) = node {
                let _ = net.enter(node);
            }
            print_rows(&rt, &net)?;
        }
        Task::Compare(one, two) => {
            let mut other = Net::new(0, Socket);
            let _ = other.load(text.as_slice());
            let _ = net.enter(one);
            let _ = other.enter(two);
            print_difference(&rt, &net, &other)?;
        }
    }
    Ok(ExitCode::SUCCESS)
}

fn read_task(rt: &HostRuntime) -> anyhow::Result<Task> {
    let mut words = env::args(rt)?.skip(1);
    let (task, one, two) = (words.next(), words.next(), words.next());
    match (task.as_deref(), one.as_deref(), two.as_deref()) {
        (None, ..) => Ok(Task::Both),
        (Some("text"), ..) => Ok(Task::Text),
        (Some("rows"), None, _) => Ok(Task::Rows(None)),
        (Some("rows"), Some(node), _) => Ok(Task::Rows(Some(read_node(node)?))),
        (Some("compare"), Some(one), Some(two)) => Ok(Task::Compare(
            read_node(one)?,
            read_node(two)?,
        )),
        _ => Err(anyhow!("{USAGE}")),
    }
}

fn read_node(word: &str) -> anyhow::Result<u8> {
    match word.parse() {
        Ok(node @ 0..=31) => Ok(node),
        _ => Err(anyhow!("{USAGE}")),
    }
}

fn print_text(rt: &HostRuntime, net: &Net<Socket>) -> anyhow::Result<()> {
    let mut bytes = [0u8; LONGEST];
    match net.write(&mut bytes) {
        Ok(count) => rt.stdout().write_all(&bytes[0..count])?,
        Err(fault) => println!(rt; "writing is refused with {fault}")?,
    }
    Ok(())
}

fn print_rows(rt: &HostRuntime, net: &Net<Socket>) -> anyhow::Result<()> {
    match flat_text(rt.alloc(), net) {
        Ok(rows) => print!(rt; "{rows}")?,
        Err(FlatError::Refused(fault)) => println!(rt; "flattening is refused with {fault}")?,
        Err(FlatError::Memory) => return Err(anyhow!("no memory is left for the rows")),
    }
    Ok(())
}

// The lowest address at which the two have not the same names.
fn print_difference(rt: &HostRuntime, one: &Net<Socket>, two: &Net<Socket>) -> anyhow::Result<()> {
    let mut scratch = [Name::default(); SLOTS];
    let mut other = [Name::default(); SLOTS];
    match compare(one, two, &mut scratch, &mut other) {
        Ok(Some(address)) => println!(rt; "they differ first at {address:016x}")?,
        Ok(None) => println!(rt; "they are equal at every address")?,
        Err(fault) => println!(rt; "comparing is refused with {fault}")?,
    }
    Ok(())
}
