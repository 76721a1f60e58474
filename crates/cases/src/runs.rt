use crate::worked::{accept, bank, name};
use model::faults::Fault;
use nets::edit::NetEdit;
use nets::net::Net;
use serve::call::{Answer, Call};
use serve::run::serve;
use space::Space;
use std::test::Fail;

#[test]
fn each_call_finds_what_the_earlier_left(rt: HostRuntime) -> Result<(), Fail> {
    let mut net = Net::new(0, bank(0, 0));
    let calls = vec![in rt.alloc();
        Call::Edit(NetEdit::Over {
            node: 0,
            destination: 1,
        }),
        Call::Edit(NetEdit::Accept(accept(1, 0x1000, 0x1fff))),
        Call::Edit(NetEdit::Over {
            node: 1,
            destination: 0,
        }),
        Call::Edit(NetEdit::Plug(bank(3, 1))),
    ]?;
    let mut answers = serve(rt.alloc(), &mut net, calls)?;
    assert!(rt; net.meets(0x1004, name(1, 0x1004)));
    let Some(Answer::Edited(plugged)) = answers.pop() else {
        return Err(Fail::new("a plug is not answered"));
    };
    assert_eq!(rt; plugged, Ok(()));
    let Some(Answer::Edited(ringed)) = answers.pop() else {
        return Err(Fail::new("a ring is not answered"));
    };
    assert_eq!(rt;
        ringed,
        Err(Fault::WalkTooLong {
            node: 0,
            address: 0,
        })
    );
    Ok(())
}
