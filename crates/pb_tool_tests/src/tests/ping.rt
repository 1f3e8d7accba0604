//! Tests of `ping`, over a site in memory.

use crate::tests::ran_over;
use pb_base::NodeId;
use pb_io::{MemDisk, MemSite};
use pb_packet::Packet;
use pb_tool::Status;
use pb_trans::{Asked, Exchange, Limits, Step};
use std::alloc::{AllocError, Global};
use std::test::Fail;

const PING: &[&str] = &["-", "-", "ping", "4094", "1"];

const HELLO: &[u8] = b"\xBD\xA0\x01\x9F\xFE\x00\x01\x0F\xFE\x09\x01\x00\x02\x07\x08\xE8\x1F\xBD";

const CLOCK: &[u8] =
    b"\xBD\xA0\x01\x5F\xFE\x10\x01\x0F\xFE\x17\x02\x00\x00\x00\x00\x00\x00\x00\x00\x00\x00\x88\xF2\xBD";

const HELLO_REPLY: &[u8] =
    b"\xBD\xAF\xFE\x90\x01\x0F\xFE\x00\x01\x89\x01\x01\x02\x07\x08\x3B\xBE\xBD";

const CLOCK_REPLY: &[u8] =
    b"\xBD\xAF\xFE\x10\x01\x1F\xFE\x00\x01\x97\x02\x00\x3B\x9A\xCA\x00\x00\x00\x00\x00\x1F\xB7\xBD";

const BOTH_REPLIES: &[u8] =
    b"\xBD\xAF\xFE\x90\x01\x0F\xFE\x00\x01\x89\x01\x01\x02\x07\x08\x3B\xBE\xBD\xBD\xAF\xFE\x10\x01\x1F\xFE\x00\x01\x97\x02\x00\x3B\x9A\xCA\x00\x00\x00\x00\x00\x1F\xB7\xBD";

const CLOCK_REFUSED: &[u8] = b"\xBD\xAF\xFE\x10\x01\x1F\xFE\x00\x01\x97\x02\x01\xE7\x8A\xBD";

// Delivery failures of the hello and of the clock command.
const HELLO_LOST: &[u8] =
    b"\xBD\xAF\xFE\x90\x01\x0F\xFE\x00\x01\x81\x05\x06\x00\x01\x0F\xFE\x09\x01\x00\x20\x72\xBD";

const CLOCK_LOST: &[u8] =
    b"\xBD\xAF\xFE\x90\x01\x0F\xFE\x00\x01\x81\x05\x02\x10\x01\x0F\xFE\x17\x02\x00\x5F\xFD\xBD";

// Please-waits of 7 and of 200 seconds for the clock command, and one for a command of another type.
const WAIT_7: &[u8] = b"\xBD\xAF\xFE\x90\x01\x1F\xFE\x00\x01\xA1\x02\x17\x00\x07\xF0\x32\xBD";

const WAIT_200: &[u8] = b"\xBD\xAF\xFE\x90\x01\x1F\xFE\x00\x01\xA1\x02\x17\x00\xC8\x6E\x71\xBD";

const WAIT_ELSE: &[u8] = b"\xBD\xAF\xFE\x90\x01\x1F\xFE\x00\x01\xA1\x02\x09\x00\x07\x98\x78\xBD";

// What is no reply to the hello, nor a delivery failure for it: of another node, to another address, of another
// transaction, of another protocol, cut, a link state, damaged; and delivery failures of another node, protocol, message
// or source, and one that carries too little.
const STRANGE: [&[u8]; 12] = [
    b"\xBD\xAF\xFE\x90\x01\x0F\xFE\x00\x02\x89\x01\x01\x02\x07\x08\xA0\x14\xBD",
    b"\xBD\xAF\xFE\x90\x01\x0F\xFD\x00\x01\x89\x01\x01\x02\x07\x08\xCE\xB5\xBD",
    b"\xBD\xAF\xFE\x90\x01\x0F\xFE\x00\x01\x89\x02\x01\x02\x07\x08\xF5\xA1\xBD",
    b"\xBD\xAF\xFE\x90\x01\x1F\xFE\x00\x01\x89\x01\x01\x02\x07\x08\xAF\xA4\xBD",
    b"\xBD\xAF\xFE\x90\x01\x0F\xFE\x00\x01\x89\x01\x01\x02\x07\xC6\xBF\xBD",
    b"\xBD\xAF\xFE\x90\x01\x8B\x6A\xBD",
    b"\xBD\xAF\xFE\x90\x01\x0F\xFE\x00\x01\x89\x01\x01\x03\x07\x08\x3B\xBE\xBD",
    b"\xBD\xAF\xFE\x90\x01\x0F\xFE\x00\x01\x81\x05\x06\x00\x02\x0F\xFE\x09\x01\x00\x77\x2C\xBD",
    b"\xBD\xAF\xFE\x90\x01\x0F\xFE\x00\x01\x81\x05\x06\x10\x01\x0F\xFE\x09\x01\x00\xAA\xE6\xBD",
    b"\xBD\xAF\xFE\x90\x01\x0F\xFE\x00\x01\x81\x05\x06\x00\x01\x0F\xFE\x09\x02\x00\x1B\x70\xBD",
    b"\xBD\xAF\xFE\x90\x01\x0F\xFE\x00\x01\x81\x05\x06\x00\x01\x0F\xFD\x09\x01\x00\x3D\x7E\xBD",
    b"\xBD\xAF\xFE\x90\x01\x0F\xFE\x00\x01\x81\x05\x06\x00\x01\x0F\xFE\x09\x3E\xF9\xBD",
];

const GREETED: &[u8] = b"hello 1 router 1 metric 2 verify 1800\nclock 1 2021-09-09 01:46:40\n";

const NO_HELLO: &[u8] = b"hello 1 no answer\n";

const NO_CLOCK: &[u8] = b"hello 1 router 1 metric 2 verify 1800\nclock 1 no answer\n";

// What a ping of node 1 by node 4094 came to: its status, what it printed, and the frames that it sent.
#[derive(Drop)]
struct Ping {
    status: Status,
    written: Vec<u8>,
    sent: Vec<Vec<u8>>,
}

// The frames that a site has sent, seven at most.
fn sent_by(alloc: Global, site: &MemSite) -> Result<Vec<Vec<u8>>, AllocError> {
    let mut sent = Vec::new(alloc);
    for n in 0..7 {
        if let Some(frame) = site.sent(n) {
            sent.push(Vec::from_slice(alloc, frame)?)?;
        }
    }
    Ok(sent)
}

// A site in memory that hears these chunks; the link call of this number fails.
fn site_of(alloc: Global, chunks: &[&[u8]], fails: u64) -> Result<MemSite, Fail> {
    let mut site = MemSite::new(alloc, MemDisk::new(alloc, &[], &[])?, &[fails])?;
    for chunk in chunks {
        site.hears(chunk)?;
    }
    Ok(site)
}

// Pings over a site in memory that hears these chunks; the link call of this number fails.
fn pinged(alloc: Global, chunks: &[&[u8]], fails: u64) -> Result<Ping, Fail> {
    let mut site = site_of(alloc, chunks, fails)?;
    let (status, written) = ran_over(alloc, PING, &mut site, (&[], 1, &[]), &[])?;
    let sent = sent_by(alloc, &site)?;
    Ok(Ping {
        status,
        written,
        sent,
    })
}

// Whether a ping that hears these chunks prints this text after so many calls of the link: the last of them, where it
// fails, is a link fault, and a call after it is never made.
fn prints_after(alloc: Global, chunks: &[&[u8]], calls: u64, text: &[u8]) -> Result<bool, Fail> {
    let short = pinged(alloc, chunks, calls.saturating_sub(1))?;
    let whole = pinged(alloc, chunks, calls)?;
    Ok(
        short.status == Status::LinkFault
            && short.written.as_slice() == b"pakbus: link fault\n".as_slice()
            && whole.status != Status::LinkFault
            && whole.written.as_slice() == text,
    )
}

#[test]
fn pings(rt: HostRuntime) -> Result<(), Fail> {
    // In two chunks, in one, with ticks between, and in reply to the second hello.
    let table: [(&[&[u8]], u64, usize); 4] = [
        (&[HELLO_REPLY, CLOCK_REPLY], 4, 1),
        (&[BOTH_REPLIES], 3, 1),
        (&[b"\xBD", &[], HELLO_REPLY, &[], CLOCK_REPLY], 7, 1),
        (&[&[], &[], &[], &[], &[], HELLO_REPLY, CLOCK_REPLY], 10, 2),
    ];
    for (chunks, calls, hellos) in table {
        assert!(rt; prints_after(rt.alloc(), chunks, calls, GREETED)?);
        let ping = pinged(rt.alloc(), chunks, 1000)?;
        assert_eq!(rt; ping.status, Status::Done);
        assert_eq!(rt; ping.sent.len(), hellos + 1);
        for n in 0..hellos {
            assert_eq!(rt; ping.sent.get(n).map(|frame| frame.as_slice()), Some(HELLO));
        }
        assert_eq!(rt;
            ping.sent.get(hellos).map(|frame| frame.as_slice()),
            Some(CLOCK)
        );
    }
    Ok(())
}

#[test]
fn passes_over_what_is_no_answer(rt: HostRuntime) -> Result<(), Fail> {
    for chunk in STRANGE {
        assert!(rt; prints_after(rt.alloc(), &[chunk], 19, NO_HELLO)?);
    }
    Ok(())
}

#[test]
fn pings_without_an_answer(rt: HostRuntime) -> Result<(), Fail> {
    let ping = pinged(rt.alloc(), &[], 1000)?;
    assert_eq!(rt; ping.status, Status::Incomplete);
    assert_eq!(rt; ping.sent.len(), 3);

    // Three sendings with five ticks each; please-waits of 7 and of 200 seconds, after three ticks, and of another type;
    // delivery failures; a refusal.
    let lost: &[u8] = b"hello 1 undelivered 6\n";
    let clock_lost: &[u8] = b"hello 1 router 1 metric 2 verify 1800\nclock 1 undelivered 2\n";
    let refused: &[u8] = b"hello 1 router 1 metric 2 verify 1800\nclock 1 refused 1\n";
    let table: [(&[&[u8]], u64, &[u8]); 8] = [
        (&[], 18, NO_HELLO),
        (&[HELLO_REPLY, WAIT_7], 28, NO_CLOCK),
        (&[HELLO_REPLY, WAIT_200], 81, NO_CLOCK),
        (&[HELLO_REPLY, &[], &[], &[], WAIT_7], 31, NO_CLOCK),
        (&[HELLO_REPLY, WAIT_ELSE], 21, NO_CLOCK),
        (&[HELLO_LOST], 2, lost),
        (&[HELLO_REPLY, CLOCK_LOST], 4, clock_lost),
        (&[HELLO_REPLY, CLOCK_REFUSED], 4, refused),
    ];
    for (chunks, calls, text) in table {
        assert!(rt; prints_after(rt.alloc(), chunks, calls, text)?);
        assert_eq!(rt;
            pinged(rt.alloc(), chunks, 1000)?.status,
            Status::Incomplete
        );
    }
    Ok(())
}

// So many bytes, none of which is a flag byte.
fn zeros(alloc: Global, count: u32) -> Result<Vec<u8>, Fail> {
    let mut bytes = Vec::new(alloc);
    for _ in 0..count {
        bytes.push(0)?;
    }
    Ok(bytes)
}

#[test]
fn pings_through_a_flood(rt: HostRuntime) -> Result<(), Fail> {
    let alloc = rt.alloc();
    let less = zeros(alloc, 65_535)?;
    assert!(rt; prints_after(alloc, &[less.as_slice()], 34, NO_HELLO)?);
    let flood = zeros(alloc, 65_536)?;
    assert!(rt; prints_after(alloc, &[flood.as_slice()], 17, b"hello 1 flooded\n")?);

    // A reply that ends with the byte of the limit is judged first.
    let first = zeros(alloc, 61_440)?;
    let mut last = zeros(alloc, 4078)?;
    last.extend_from_slice(HELLO_REPLY)?;
    let chunks = [first.as_slice(), last.as_slice(), CLOCK_REPLY];
    assert!(rt; prints_after(alloc, &chunks, 19, GREETED)?);
    Ok(())
}

// What the exchange answers to a packet.
fn hears(exchange: &mut Exchange, content: &[u8]) -> Option<Step> {
    if content.len() < 8 {
        return None;
    }
    match pb_packet::read(content) {
        Ok(Packet::Full(header, message)) => Some(exchange.hear(&header, message)),
        _ => None,
    }
}

#[test]
fn feeds_an_exchange_by_hand(rt: HostRuntime) -> Result<(), Fail> {
    let asked = Asked {
        me: NodeId::new(4094).unwrap(),
        station: NodeId::new(1).unwrap(),
        proto: 1,
        kind: 0x17,
        tran: 2,
    };
    let limits = Limits {
        budget: 1,
        sends: 2,
        quiets: 3,
    };
    let mut exchange = Exchange::begin(asked, limits);
    assert_eq!(rt; exchange.quiet(), Step::Wait);
    assert_eq!(rt; exchange.quiet(), Step::Wait);
    let wait = b"\xAF\xFE\x90\x01\x1F\xFE\x00\x01\xA1\x02\x17\x00\x07";
    assert_eq!(rt; hears(&mut exchange, wait), Some(Step::Wait));
    for _ in 0..9 {
        assert_eq!(rt; exchange.quiet(), Step::Wait);
    }
    assert_eq!(rt; exchange.bytes(65_535), Step::Wait);
    assert_eq!(rt; exchange.quiet(), Step::Resend);
    assert_eq!(rt; exchange.bytes(65_535), Step::Wait);
    assert_eq!(rt; exchange.bytes(1), Step::Flooded);
    let lost = b"\xAF\xFE\x90\x01\x0F\xFE\x00\x01\x81\x05\x02\x10\x01\x0F\xFE\x17\x02";
    assert_eq!(rt; hears(&mut exchange, lost), Some(Step::Undelivered(2)));
    let reply = b"\xAF\xFE\x90\x01\x1F\xFE\x00\x01\x97\x02\x01";
    assert_eq!(rt; hears(&mut exchange, reply), Some(Step::Answer));
    let other = b"\xAF\xFE\x90\x01\x1F\xFE\x00\x01\x97\x03\x01";
    assert_eq!(rt; hears(&mut exchange, other), Some(Step::Wait));
    assert_eq!(rt; exchange.quiet(), Step::Wait);
    assert_eq!(rt; exchange.quiet(), Step::Wait);
    assert_eq!(rt; exchange.quiet(), Step::NoAnswer);
    assert_eq!(rt; exchange.quiet(), Step::NoAnswer);
    Ok(())
}
