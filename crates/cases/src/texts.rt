use loading::fault::{LoadFault, Part};
use model::faults::Fault;
use nets::net::Net;
use space::socket::Socket;

// Overlays and the entry stand first here; written, they stand last and first.
const MIXED: &[u8] = b"4f0001\n410100000000000010000000000000001fff\n4501";

const WRITTEN: &[u8] = b"4501\n410100000000000010000000000000001fff\n4f0001\n";

#[test]
fn a_text_is_loaded_and_written(rt: HostRuntime) {
    let mut net = Net::new(7, Socket);
    assert_eq!(rt; net.load(MIXED), Ok(()));
    let mut out = [0xffu8; 60];
    assert_eq!(rt; net.write(&mut out), Ok(49));
    assert!(rt; &out[0..49] == WRITTEN);
    assert_eq!(rt; out[49], 0xff);
    let mut short = [0xffu8; 48];
    assert_eq!(rt; net.write(&mut short), Err(Fault::BufferShort));
    assert_eq!(rt; short[0], 0xff);
}

#[test]
fn a_refused_load_leaves_the_net(rt: HostRuntime) {
    let mut net = Net::new(7, Socket);
    assert_eq!(rt; net.load(WRITTEN), Ok(()));
    assert_eq!(rt;
        net.load(b"4502\n4f0100\n4f0001\n"),
        Err(LoadFault {
            line: 3,
            part: Part::Net,
            fault: Fault::WalkTooLong {
                node: 0,
                address: 0,
            },
        })
    );
    let mut out = [0u8; 49];
    assert_eq!(rt; net.write(&mut out), Ok(49));
    assert!(rt; &out[0..49] == WRITTEN);
}

#[test]
fn a_load_tells_its_first_fault(rt: HostRuntime) {
    let mut net = Net::new(7, Socket);
    assert_eq!(rt; net.load(b""), Ok(()));
    let text = LoadFault {
        line: 2,
        part: Part::Text,
        fault: Fault::OddDigits,
    };
    assert_eq!(rt; net.load(b"4500\n\n4g"), Err(text));
    let frame = LoadFault {
        line: 1,
        part: Part::Frame,
        fault: Fault::KindUnknown,
    };
    assert_eq!(rt; net.load(b"4c0000000000000000\n"), Err(frame));
}
