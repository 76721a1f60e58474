ghost use Rattle.std.specs.Prelude.{◌≡◌, length, IfOk, string_bytes};
ghost use Rattle.systems.specs.Looks.{look_read, look_text, seen};

use crate::look::Look;
use model::names::Name;
use nets::net::Net;
use space::Space;
use std::alloc::{AllocError, Global};
use text::number::{push_number, read_number};
use text::row::push_found;

// The look that a line begins with. What stands between and behind the numbers is compared with the whole line later.
pub fn read_look(text: &str) -> Option<Look>
    ensures { result ≡ look_read text.now }
{
    let line = text.as_bytes();
    let node = read_number(line.get(0..2)?)?;
    let address = read_number(line.get(3..19)?)?;
    Some(Look {
        node: node as u8,
        address,
    })
}

// The line of a look: the node, the address, and the names found from there.
pub fn look_line<B: Space>(
    heap: Global,
    net: &Net<B>,
    look: Look,
    slots: &mut [Name],
) -> Result<String, AllocError>
    ensures { IfOk result (λ line. string_bytes line ≡ look_text (seen B.Space.means net.now look) look (length slots.old)) }
{
    let mut line = String::new(heap);
    push_number(&mut line, u64::from(look.node), 2)?;
    line.push_str(" ")?;
    push_number(&mut line, look.address, 16)?;
    match net.resolve(look.node, look.address, slots) {
        Ok((count, _)) => push_found(&mut line, &slots[0..count])?,
        Err(_) => line.push_str(" refused")?,
    }
    Ok(line)
}
