ghost use Rattle.std.specs.Prelude.{◌≡◌, IfOk, string_bytes};
ghost use Rattle.model.specs.Edits.{ended};
ghost use Rattle.model.specs.Faults.{told};
ghost use Rattle.nets.specs.Shape.{net_means};
ghost use Rattle.nets.specs.Meant.{net_meant};
ghost use Rattle.serve.specs.Reference.{asked_of, flattened, heard, looked, reference};
ghost use Rattle.netlines.specs.Replies.{answered, end_text, frame_asked, names_line_lem, refusal_text, reply_text};

use frames::frame::Frame;
use model::faults::Fault;
use model::names::Name;
use nets::edit::NetEdit;
use nets::net::Net;
use serve::call::{Answer, Call};
use serve::run::serve;
use space::Space;
use std::alloc::{AllocError, Global};
use text::number::push_number;
use text::row::push_names;

// The longest list of a net over a bank: a walk meets at most 64 names.
const SLOTS: usize = 64;

// Does what a line says, and gives the answer's line.
pub fn answer<B: Space + Drop>(
    heap: Global,
    net: &mut Net<B>,
    read: Result<Frame, Fault>,
) -> Result<String, AllocError>
    ensures { IfOk result (λ line. (string_bytes line ≡ (answered (net_means B.Space.means net.old).shape read).0) × ((net_means B.Space.means net.new).shape ≡ (answered (net_means B.Space.means net.old).shape read).1)) }
{
    match read {
        Ok(frame) => obey(heap, net, frame),
        Err(fault) => refusal_line(heap, fault),
    }
}

// Makes the one call that a frame asks for.
fn obey<B: Space + Drop>(heap: Global, net: &mut Net<B>, frame: Frame) -> Result<String, AllocError>
    ensures { IfOk result (λ line. (string_bytes line ≡ reply_text (reference (net_means B.Space.means net.old).shape (frame_asked frame)).0) × ((net_means B.Space.means net.new).shape ≡ (reference (net_means B.Space.means net.old).shape (frame_asked frame)).1)) }
{
    let call = call_of::<B>(heap, frame)?;
    // Pushed, since with `vec!` the check does not find that the size of a call fits.
    let mut calls = Vec::new(heap);
    calls.push(call)?;
    let mut answers = serve(heap, net, calls)?;
    match answers.pop() {
        Some(answer) => reply_line(heap, answer),
        None => unreachable!(),
    }
}

// The call of a frame.
// No conversion: the slots of a look need memory.
fn call_of<B: Space + Drop>(heap: Global, frame: Frame) -> Result<Call<NetEdit<B>>, AllocError>
    ensures { IfOk result (λ call. asked_of (net_meant B.Space.means) call ≡ frame_asked frame) }
{
    let edit = match frame {
        Frame::Accept(block) => NetEdit::Accept(block),
        Frame::Map(block) => NetEdit::Map(block),
        Frame::Over { node, destination } => NetEdit::Over { node, destination },
        Frame::Enter { node } => NetEdit::Enter(node),
        Frame::DropAccept(block) => NetEdit::DropAccept(block),
        Frame::DropMap(block) => NetEdit::DropMap(block),
        Frame::Look { address } => {
            let slots = vec![in heap; Name::default(); SLOTS]?;
            return Ok(Call::Look { address, slots });
        }
    };
    Ok(Call::Edit(edit))
}

// The line of an answer.
fn reply_line(heap: Global, answer: Answer) -> Result<String, AllocError>
    ensures { IfOk result (λ line. string_bytes line ≡ reply_text (heard answer)) }
{
    match answer {
        Answer::Edited(result) => end_line(heap, result),
        Answer::Looked { result, slots } => look_line(heap, result, slots.as_slice()),
        Answer::Flattened { result, .. } => flat_line(heap, result),
    }
}

// The line of how an edit ended.
fn end_line(heap: Global, res: Result<(), Fault>) -> Result<String, AllocError>
    ensures { IfOk result (λ line. string_bytes line ≡ end_text (ended res)) }
{
    match res {
        Ok(()) => String::from_str(heap, "+"),
        Err(fault) => refusal_line(heap, fault),
    }
}

// The line of a refusal: its number.
fn refusal_line(heap: Global, fault: Fault) -> Result<String, AllocError>
    ensures { IfOk result (λ line. string_bytes line ≡ refusal_text (told fault)) }
{
    let mut line = String::from_str(heap, "- ")?;
    push_number(&mut line, u64::from(fault.number()), 2)?;
    Ok(line)
}

// The line of a look: the names in its first slots, as many as it counts.
fn look_line(
    heap: Global,
    res: Result<(usize, u64), Fault>,
    slots: &[Name],
) -> Result<String, AllocError>
    ensures { IfOk result (λ line. string_bytes line ≡ reply_text (looked res slots.now)) }
{
    match res {
        Ok((count, _)) => names_line(heap, &slots[..count.min(slots.len())]),
        Err(fault) => refusal_line(heap, fault),
    }
}

// How many names, and each of them.
fn names_line(heap: Global, names: &[Name]) -> Result<String, AllocError>
    ensures { IfOk result (λ line. string_bytes line ≡ names_line_lem names.now) }
{
    let mut line = String::from_str(heap, "= ")?;
    push_number(&mut line, names.len() as u64, 2)?;
    push_names(&mut line, names)?;
    Ok(line)
}

// The line of a flattening, which no frame asks for.
fn flat_line(heap: Global, res: Result<usize, Fault>) -> Result<String, AllocError>
    ensures { IfOk result (λ line. string_bytes line ≡ reply_text (flattened res)) }
{
    match res {
        Ok(count) => {
            let mut line = String::from_str(heap, "= ")?;
            push_number(&mut line, count as u64, 16)?;
            Ok(line)
        }
        Err(fault) => refusal_line(heap, fault),
    }
}
