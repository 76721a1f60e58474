// Lines and what they are read as.
use crate::worked::{accept, map};
use frames::frame::{Frame, Kinds};
use frames::line::LineReader;
use frames::read::read_frame;
use frames::reader::read_line;
use model::faults::Fault;

#[test]
fn frames_of_a_net_are_read(rt: HostRuntime) {
    assert_eq!(rt;
        read_line(Kinds::Net, b"4f0001"),
        Ok(Frame::Over {
            node: 0,
            destination: 1,
        })
    );
    assert_eq!(rt;
        read_line(Kinds::Net, b"451f"),
        Ok(Frame::Enter { node: 31 })
    );
    assert_eq!(rt;
        read_line(Kinds::Net, b"410100000000000010000000000000001fff"),
        Ok(Frame::Accept(accept(1, 0x1000, 0x1fff)))
    );
    assert_eq!(rt;
        read_line(
            Kinds::Net,
            b"4d0500000000000010000000000000001fff20abcdef0123456789",
        ),
        Ok(Frame::Map(map(5, 0x1000, 0x1fff, 32, 0xabcd_ef01_2345_6789)))
    );
}

#[test]
fn frames_of_a_program_are_read(rt: HostRuntime) {
    assert_eq!(rt;
        read_line(Kinds::Program, b"4c0000000000001004"),
        Ok(Frame::Look { address: 0x1004 })
    );
    assert_eq!(rt;
        read_line(Kinds::Program, b"610100000000000010000000000000001fff"),
        Ok(Frame::DropAccept(accept(1, 0x1000, 0x1fff)))
    );
    assert_eq!(rt;
        read_line(Kinds::Net, b"610100000000000010000000000000001fff"),
        Err(Fault::KindUnknown)
    );
    assert_eq!(rt;
        read_line(Kinds::Net, b"4c0000000000001004"),
        Err(Fault::KindUnknown)
    );
}

#[test]
fn damaged_lines_are_refused(rt: HostRuntime) {
    assert_eq!(rt; read_line(Kinds::Net, b"4g"), Err(Fault::NotADigit));
    assert_eq!(rt; read_line(Kinds::Net, b"4F0"), Err(Fault::NotADigit));
    assert_eq!(rt; read_line(Kinds::Net, b"4f0"), Err(Fault::OddDigits));
    assert_eq!(rt; read_line(Kinds::Net, b""), Err(Fault::OddDigits));
    assert_eq!(rt; read_line(Kinds::Net, b"50"), Err(Fault::KindUnknown));
    assert_eq!(rt; read_line(Kinds::Net, b"4f00"), Err(Fault::LengthWrong));
    assert_eq!(rt; read_line(Kinds::Net, b"45"), Err(Fault::LengthWrong));
    assert_eq!(rt; read_frame(Kinds::Net, b""), Err(Fault::KindUnknown));
}

#[test]
fn long_lines_are_refused(rt: HostRuntime) {
    assert_eq!(rt;
        read_line(
            Kinds::Net,
            b"4d0500000000000010000000000000001fff20abcdef012345678900",
        ),
        Err(Fault::LengthWrong)
    );
    assert_eq!(rt;
        read_line(Kinds::Net, &[b'5'; 1000]),
        Err(Fault::KindUnknown)
    );
    assert_eq!(rt; read_line(Kinds::Net, &[b'4'; 999]), Err(Fault::OddDigits));
}

#[test]
fn a_line_is_fed_by_characters(rt: HostRuntime) {
    let mut reader = LineReader::new();
    reader.take('4');
    assert_eq!(rt; reader.finish(Kinds::Net), Err(Fault::OddDigits));
    reader.take('5');
    assert_eq!(rt; reader.finish(Kinds::Net), Err(Fault::LengthWrong));
    reader.take_all(b"03");
    assert_eq!(rt; reader.finish(Kinds::Net), Ok(Frame::Enter { node: 3 }));
    reader.take('é');
    assert_eq!(rt; reader.finish(Kinds::Net), Err(Fault::NotADigit));
}
