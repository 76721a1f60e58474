ghost use Rattle.std.specs.Prelude.{◌≡◌, MatchResult};
ghost use Rattle.serve.specs.Served.{Served, Right};
ghost use Rattle.serve.specs.Reference.{asked_of, reference};

use crate::call::{Answer, Call};
use flatten::flat::flatten;
use space::layer::Layer;
use std::alloc::{AllocError, Global};

// Feeds the calls to the stack, one after another, and gives their answers. Where memory for the answers cannot be had, no call is made.
pub fn serve<P: Layer>(
    heap: Global,
    stack: &mut P,
    calls: Vec<Call<P::Edit>>,
) -> Result<Vec<Answer>, AllocError>
where
    P::Edit: Drop,
    ensures { MatchResult result
        (λ answers. Served P.Layer.meaning (P.Space.means stack.old).shape calls.items answers.items (P.Space.means stack.new).shape)
        (λ _. stack.new ≡ stack.old) }
{
    let mut answers = Vec::with_capacity(heap, calls.len())?;
    // A `for`: of what a closure changes a proof would know nothing.
    for call in calls {
        let answer = serve_one(stack, call);
        answers.push_reserved(answer);
    }
    Ok(answers)
}

// Feeds one call to the stack.
fn serve_one<P: Layer>(stack: &mut P, call: Call<P::Edit>) -> Answer
    ensures right { Right P.Layer.meaning (P.Space.means stack.old).shape call result }
    ensures left { (P.Space.means stack.new).shape ≡ (reference (P.Space.means stack.old).shape (asked_of P.Layer.meaning call)).1 }
{
    match call {
        Call::Edit(e) => Answer::Edited(stack.edit(e)),
        Call::Look { address, mut slots } => {
            let result = stack.look(address, slots.as_mut_slice());
            Answer::Looked { result, slots }
        }
        Call::Flatten {
            mut scratch,
            mut table,
        } => {
            let result = flatten(stack, scratch.as_mut_slice(), table.as_mut_slice());
            Answer::Flattened {
                result,
                scratch,
                table,
            }
        }
    }
}
