use model::faults::Fault;
use model::names::Name;
use model::records::Record;

// A call of the top layer, with the buffers that it is to work in.
#[derive(Drop)]
pub enum Call<E> {
    Edit(E),
    Look {
        address: u64,
        slots: Vec<Name>,
    },
    Flatten {
        scratch: Vec<Name>,
        table: Vec<Record>,
    },
}

// What a call answered, with its buffers handed back.
#[derive(Drop)]
pub enum Answer {
    Edited(Result<(), Fault>),
    Looked {
        result: Result<(usize, u64), Fault>,
        slots: Vec<Name>,
    },
    Flattened {
        result: Result<usize, Fault>,
        scratch: Vec<Name>,
        table: Vec<Record>,
    },
}
