#![tactic(auto)]

// Reads frames from standard input, a line each, into a net, and answers every line as it comes.
mod answer;

use answer::answer;
use frames::frame::Kinds;
use frames::line::LineReader;
use nets::net::Net;
use space::bank::Bank;
use std::io::Read;

fn main(rt: HostRuntime) -> anyhow::Result<()> {
    let below = Bank {
        component: 0,
        size: 0,
    };
    let mut session = Session {
        net: Net::new(0, below),
        line: None,
    };
    // A buffer at a time: byte by byte, through `bytes`, it takes a fifth longer.
    let mut input = rt.stdin();
    let mut bytes = [0u8; 4096];
    for _ in 0..u64::MAX {
        let count = input.read(&mut bytes)?;
        if count == 0 {
            break;
        }
        session.feed(&rt, &bytes[..count])?;
    }
    match session.line.take() {
        Some(line) => session.tell(&rt, &line),
        None => Ok(()),
    }
}

// The net, and the line that is being read, from its first character on.
#[derive(Drop)]
struct Session {
    net: Net<Bank>,
    line: Option<LineReader>,
}

impl Session {
    // Reads some bytes, and answers each line that ends among them.
    fn feed(&mut self, rt: &HostRuntime, bytes: &[u8]) -> anyhow::Result<()> {
        for byte in bytes {
            if *byte == b'\n' {
                let line = self.line.take().unwrap_or_else(LineReader::new);
                self.tell(rt, &line)?;
            } else {
                self.line
                    .get_or_insert_with(LineReader::new)
                    .take(*byte as char);
            }
        }
        Ok(())
    }

    // Answers a line that has ended.
    fn tell(&mut self, rt: &HostRuntime, line: &LineReader) -> anyhow::Result<()> {
        let reply = answer(rt.alloc(), &mut self.net, line.finish(Kinds::Program))?;
        println!(rt; "{reply}")?;
        Ok(())
    }
}
