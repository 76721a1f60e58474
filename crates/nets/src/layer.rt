ghost use Rattle.nets.specs.Meant.{net_meant};

use crate::edit::NetEdit;
use crate::net::Net;
use model::faults::Fault;
use space::Space;
use space::layer::Layer;

impl<B: Space + Drop> Layer for Net<B> {
    type Edit = NetEdit<B>;

    ghost meaning = { net_meant B.Space.means };

    fn edit(&mut self, e: NetEdit<B>) -> Result<(), Fault> {
        match e {
            NetEdit::Accept(block) => self.accept(block),
            NetEdit::Map(block) => self.map(block),
            NetEdit::Over { node, destination } => self.over(node, destination),
            NetEdit::DropAccept(block) => self.drop_accept(block),
            NetEdit::DropMap(block) => self.drop_map(block),
            NetEdit::Enter(node) => self.enter(node),
            NetEdit::Plug(below) => {
                let _old = self.plug(below);
                Ok(())
            }
        }
    }
}
