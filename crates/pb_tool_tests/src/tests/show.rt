//! Tests of `show`: each form of line, and faults.
use crate::tests::{RING, ran};
use pb_tool::Status;
use std::test::Fail;

const SHOW: &[&str] = &["-", "-", "show"];

const RING_TWICE: &[u8] = b"\xBD\x90\x01\x0F\xFE\x71\xD2\xBD\x90\x01\x0F\xFE\x71\xD2\xBD";

#[test]
fn shows_each_form_of_line(rt: HostRuntime) -> Result<(), Fail> {
    let table: [(&[u8], &[u8], Status); 11] = [
        (RING, b"1 ring 4094>1 more 0 pri 0\n", Status::Done),
        (
            b"\xBD\xA0\x01\x9F\xFE\x00\x01\x0F\xFE\x09\x01\x00\x02\x07\x08\xE8\x1F\xBD",
            b"1 ready 4094>1 more 2 pri 1 pakctrl 4094>1 hops 0 hello tran 1 router 0 metric 2 verify 1800\n",
            Status::Done,
        ),
        (
            b"\xBD\xA0\x01\x9F\xFE\x00\x01\x0F\xFE\x09\x01\x00\x02\x07\x08\xE8\x1E\xBD\x90\x01\x0F\xFE\x71\xD2\xBD",
            b"1 bad signature at 17\n18 ring 4094>1 more 0 pri 0\n",
            Status::Format,
        ),
        (
            b"\xBD\x90\xBC\xDC\x0F\xBC\xDD\x2C\x6B\xBD",
            b"1 ring 4029>188 more 0 pri 0\n",
            Status::Done,
        ),
        (
            RING_TWICE,
            b"1 ring 4094>1 more 0 pri 0\n8 ring 4094>1 more 0 pri 0\n",
            Status::Done,
        ),
        (b"\x01\x02", b"", Status::Done),
        (b"\xBD\x90", b"1 unfinished\n", Status::Format),
        (
            b"\xBD\xBC\xBD\x90\x01\x0F\xFE\x71\xD2\xBD",
            b"1 bad quote at 2\n3 ring 4094>1 more 0 pri 0\n",
            Status::Format,
        ),
        (
            b"\xBD\x70\x01\x0F\xFE\x1A\x56\xBD",
            b"1 bad packet state 7\n",
            Status::Format,
        ),
        (
            b"\xBD\xA0\x01\x9F\xFE\x00\x01\x00\x00\xF9\x81\xBD",
            b"1 bad packet address 3\n",
            Status::Format,
        ),
        (
            b"\xBD\xA0\x01\x9F\xFE\x00\x01\x0F\xFE\xB1\x65\xBD",
            b"1 ready 4094>1 more 2 pri 1 pakctrl 4094>1 hops 0 malformed at 0\n",
            Status::Format,
        ),
    ];
    for (input, text, status) in table {
        for piece in [6, 1000] {
            let (ended, written) = ran(rt.alloc(), SHOW, (input, piece, &[]), &[])?;
            assert_eq!(rt; written.as_slice(), text);
            assert_eq!(rt; ended, status);
        }
    }
    Ok(())
}

#[test]
fn ends_at_faults_behind_whole_lines(rt: HostRuntime) -> Result<(), Fail> {
    let (status, written) = ran(rt.alloc(), SHOW, (RING, 8, &[0]), &[])?;
    assert_eq!(rt; written.as_slice(), b"pakbus: read fault\n".as_slice());
    assert_eq!(rt; status, Status::ReadFault);

    let (status, written) = ran(rt.alloc(), SHOW, (RING_TWICE, 8, &[1]), &[])?;
    assert_eq!(rt;
        written.as_slice(),
        b"1 ring 4094>1 more 0 pri 0\npakbus: read fault\n".as_slice()
    );
    assert_eq!(rt; status, Status::ReadFault);

    let (status, written) = ran(rt.alloc(), SHOW, (RING, 8, &[]), &[0])?;
    assert_eq!(rt; written.len(), 0);
    assert_eq!(rt; status, Status::WriteFault);
    Ok(())
}
