// The family of texts: nets loaded from frames, and written.
use crate::bench::Bench;
use crate::build::{ENOUGH, any_edit};
use crate::calls::call_write;
use crate::same::Told;
use nets::net::Net;
use plain::net;
use plain::net::Edit;
use plain::texts::load;
use plain::words::No;
use space::socket::Socket;
use std::alloc::AllocError;

// A text of edits that are mostly granted, seldom with a damaged line.
fn text(bench: &mut Bench) -> Result<String, AllocError> {
    let heap = bench.heap;
    let dice = &mut bench.dice;
    let mut trial = net::Net::new(heap, 0);
    let mut text = String::new(heap);
    for _ in 0..dice.below(50) {
        let edit = any_edit(dice, &trial);
        let builds = !matches!(edit, Edit::DropAccept(_) | Edit::DropMap(_));
        let granted = builds && trial.edit(heap, edit).is_ok();
        if granted || dice.once_in(60) {
            writeln!(text, "{edit}")?;
        }
        match dice.below(400) {
            0 => text.push('\n')?,
            1 => text.push('0')?,
            2 => text.push(' ')?,
            3 => text.push_str("00\n")?,
            4 => text.push_str("450000\n")?,
            _ => {}
        }
    }
    if dice.once_in(2) {
        let _ = text.pop();
    }
    Ok(text)
}

fn call_load(
    bench: &mut Bench,
    first: &mut Net<Socket>,
    second: &mut net::Net,
    text: &str,
) -> Result<(), AllocError> {
    let one = first.load(text.as_bytes()).map_err(|fault| fault.told());
    let two = load(bench.heap, second.group, text.as_bytes()).map(|net| *second = net);
    let granted = one.map_err(|refusal| refusal.no);
    let plain_granted = two.map_err(|refusal| refusal.no);
    bench.tally.answer(&text, &granted, &plain_granted)?;
    bench.tally.same(&text, &one, &two)
}

// Loads into nets that keep something already, so that a refusal is seen to leave it.
pub fn texts(bench: &mut Bench, cases: u64) -> Result<(), No> {
    let mut first = Net::new(5, Socket);
    let mut second = net::Net::new(bench.heap, 5);
    for _ in 0..cases {
        bench.tally.case();
        let text = text(bench)?;
        call_load(bench, &mut first, &mut second, text.as_str())?;
        let length = call_write(bench, &first, &second, ENOUGH)?;
        let _ = call_write(bench, &first, &second, length)?;
        let _ = call_write(bench, &first, &second, length.saturating_sub(1))?;
    }
    Ok(())
}
