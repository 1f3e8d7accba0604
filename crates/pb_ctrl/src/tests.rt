use crate::{Ctrl, read, write};
use pb_base::{Full, MessageFault};
use std::test::*;

const SETTINGS: [u8; 11] = [
    0x00, 0x03, 0x00, 0x02, 0x41, 0x42, 0x00, 0x05, 0x00, 0x00, 0x01,
];

/// A row has the bytes of a message, the message, and the place of the refusal for each length that is cut too short.
type Row<'a> = (&'a [u8], Ctrl<'a>, &'a [usize]);

#[test]
fn messages_are_read_and_written(rt: HostRuntime) {
    let failure = Ctrl::Failure {
        tran: 1,
        err: 2,
        proto: 3,
        dst: 0x456,
        hops: 7,
        src: 0x89A,
        carried: &[0x0B, 0x0C],
    };
    let rows: [Row; 9] = [
        (
            &[0x09, 0x01, 0x00, 0x02, 0x07, 0x08],
            Ctrl::Hello {
                tran: 1,
                router: 0,
                metric: 2,
                verify: 1800,
            },
            &[0, 1, 2, 3, 4, 4],
        ),
        (
            &[0x89, 0xFF, 0x01, 0x03, 0xFF, 0xFE],
            Ctrl::HelloReply {
                tran: 255,
                router: 1,
                metric: 3,
                verify: 65534,
            },
            &[0, 1, 2, 3, 4, 4],
        ),
        (&[0x0D, 0x2A], Ctrl::Bye { tran: 42 }, &[0, 1]),
        (&[0x0E, 0x2B], Ctrl::HelloRequest { tran: 43 }, &[0, 1]),
        (
            &[0x81, 0x01, 0x02, 0x34, 0x56, 0x78, 0x9A, 0x0B, 0x0C],
            failure,
            &[0, 1, 2, 3, 3, 5, 5],
        ),
        (
            &[0x0F, 0x01, 0x02, 0x03, 0x04, 0x05],
            Ctrl::GetSettings {
                tran: 1,
                code: 0x0203,
                first: 0x0405,
            },
            &[0, 1, 2, 2, 4, 4],
        ),
        (
            &[
                0x8F, 0x01, 0x02, 0x03, 0x00, 0x03, 0x00, 0x02, 0x41, 0x42, 0x00, 0x05, 0x00, 0x00,
            ],
            Ctrl::GetSettingsReply {
                tran: 1,
                outcome: 2,
                more: 3,
                settings: &SETTINGS[..10],
            },
            &[0, 1, 2, 3],
        ),
        (
            &[0x10, 0x01, 0x02, 0x03, 0x00, 0x03, 0x00, 0x02, 0x41, 0x42],
            Ctrl::SetSettings {
                tran: 1,
                code: 0x0203,
                settings: &SETTINGS[..6],
            },
            &[0, 1, 2, 2],
        ),
        (
            &[0x90, 0x01, 0x02, 0x03, 0x04],
            Ctrl::SetSettingsReply {
                tran: 1,
                outcome: 2,
                number: 0x0304,
            },
            &[0, 1, 2, 3, 3],
        ),
    ];
    for (bytes, message, places) in &rows {
        let found = read(bytes);
        assert_eq!(rt; found, Ok(*message));
        if let Ok(message) = found {
            let mut out = [0xEE; 16];
            assert_eq!(rt; write(&message, &mut out), Ok(bytes.len()));
            assert!(rt; out.starts_with(bytes));
        }
        for (len, at) in places.iter().enumerate() {
            assert!(rt; len <= bytes.len());
            assert_eq!(rt;
                read(&bytes[..len]),
                Err(MessageFault::Malformed { at: *at })
            );
        }
    }
}

#[test]
fn what_does_not_fit_is_not_written(rt: HostRuntime) {
    let mut short = [0xEE; 4];
    let reply = Ctrl::SetSettingsReply {
        tran: 1,
        outcome: 2,
        number: 3,
    };
    assert_eq!(rt; write(&reply, &mut short), Err(Full));
    assert_eq!(rt; short, [0xEE; 4]);
}

fn settings_len(message: &[u8]) -> Option<usize> {
    match read(message) {
        Ok(Ctrl::SetSettings { settings, .. }) => Some(settings.len()),
        _ => None,
    }
}

/// Settings end with the message: a number, a length or bytes that are cut are refused at their first byte.
#[test]
fn cut_settings_are_refused(rt: HostRuntime) {
    let message: [u8; 15] = [
        0x10, 0x01, 0x02, 0x03, 0x00, 0x03, 0x00, 0x02, 0x41, 0x42, 0x00, 0x05, 0x00, 0x01, 0x07,
    ];
    let places: [Option<usize>; 12] = [
        None,
        Some(4),
        Some(6),
        Some(6),
        Some(8),
        Some(8),
        None,
        Some(10),
        Some(12),
        Some(12),
        Some(14),
        None,
    ];
    for (cut, place) in places.iter().enumerate() {
        let len = 4 + cut;
        assert!(rt; len <= message.len());
        match *place {
            None => assert_eq!(rt; settings_len(&message[..len]), Some(cut)),
            Some(at) => assert_eq!(rt; read(&message[..len]), Err(MessageFault::Malformed { at })),
        }
    }
    let long = [0x8F, 0x01, 0x00, 0x00, 0x00, 0x03, 0xFF, 0xFF, 0x41];
    assert_eq!(rt; read(&long), Err(MessageFault::Malformed { at: 8 }));
}

/// A failure carries all of the bytes that are left up to 8; a ninth is passed over.
#[test]
fn a_failure_carries_eight_bytes(rt: HostRuntime) {
    let message: [u8; 16] = [
        0x81, 0x01, 0x05, 0x1F, 0xFE, 0x0F, 0xFD, 1, 2, 3, 4, 5, 6, 7, 8, 9,
    ];
    for (more, count) in [0, 1, 2, 3, 4, 5, 6, 7, 8, 8].iter().enumerate() {
        let len = 7 + more;
        assert!(rt; len <= message.len());
        assert!(rt; *count <= 8);
        let expected = Ctrl::Failure {
            tran: 1,
            err: 5,
            proto: 1,
            dst: 0xFFE,
            hops: 0,
            src: 0xFFD,
            carried: &message[7..7 + *count],
        };
        assert_eq!(rt; read(&message[..len]), Ok(expected));
    }
    assert_eq!(rt; read(&[0x17, 0x01]), Err(MessageFault::UnknownType(0x17)));
}
