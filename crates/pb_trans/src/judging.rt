//! What a packet is to a request.
ghost use Rattle.std.specs.Prelude.{◌≡◌, ℕ, ◌↔◌, IsTrue, MatchOption};
ghost use Rattle.pb_trans.specs.Asking.{Means, IsFromStation, IsAnswer, IsFailure, IsPleaseWait, NamesRequest, BeginsWith};

use crate::asked::{Asked, Step};
use pb_bmp5::Bmp5;
use pb_ctrl::Ctrl;
use pb_packet::{Header, PROTO_BMP5, PROTO_PAKCTRL};

/// What the packet means for the request.
pub(crate) fn meaning(asked: &Asked, header: &Header, message: &[u8]) -> Step
    ensures { Means asked.now header.now message.now result }
{
    if is_answer(asked, header, message) {
        return Step::Answer;
    }
    match failure(asked, header, message) {
        Some(code) => Step::Undelivered(code),
        None => Step::Wait,
    }
}

// Whether the packet is a reply to the request.
fn is_answer(asked: &Asked, header: &Header, message: &[u8]) -> bool
    ensures { IsTrue result ↔ IsAnswer asked.now header.now message.now }
{
    if !is_from_station(asked, header) || header.proto != asked.proto {
        return false;
    }
    if asked.kind >= 0x80 {
        return false;
    }
    begins_with(message, asked.kind + 0x80, asked.tran)
}

// The code of a delivery failure for the request.
fn failure(asked: &Asked, header: &Header, message: &[u8]) -> Option<u8>
    ensures { MatchOption result ((code : ℕ) → IsFailure asked.now code header.now message.now → ⊥)
        (λ code. IsFailure asked.now code header.now message.now) }
{
    if header.dst.get() != asked.me.get() || header.proto != PROTO_PAKCTRL {
        return None;
    }
    match pb_ctrl::read(message) {
        Ok(
            Ctrl::Failure {
                err,
                proto,
                dst,
                src,
                carried,
                ..
            },
        ) => {
            if is_of_request(asked, proto, dst, src, carried) {
                Some(err)
            } else {
                None
            }
        }
        Ok(_) => None,
        Err(_) => None,
    }
}

// Whether a failure with these keys is for the request.
fn is_of_request(asked: &Asked, proto: u8, dst: u16, src: u16, carried: &[u8]) -> bool
    ensures { IsTrue result ↔ NamesRequest asked.now proto dst src carried.now }
{
    if proto != asked.proto || dst != asked.station.get() || src != asked.me.get() {
        return false;
    }
    begins_with(carried, asked.kind, asked.tran)
}

// Whether bytes begin with these two.
fn begins_with(bytes: &[u8], first: u8, second: u8) -> bool
    ensures { IsTrue result ↔ BeginsWith first second bytes.now }
{
    bytes.len() >= 2 && bytes[0] == first && bytes[1] == second
}

/// The seconds that the station asks to wait for the request.
pub(crate) fn seconds_to_wait(asked: &Asked, header: &Header, message: &[u8]) -> Option<u16>
    ensures { MatchOption result ((seconds : ℕ)
        → IsPleaseWait asked.now seconds header.now message.now → ⊥)
        (λ seconds. IsPleaseWait asked.now seconds header.now message.now) }
{
    if asked.proto != PROTO_BMP5 || header.proto != PROTO_BMP5 {
        return None;
    }
    if !is_from_station(asked, header) {
        return None;
    }
    match pb_bmp5::read(message) {
        Ok(
            Bmp5::Wait {
                tran,
                kind,
                seconds,
            },
        ) => {
            if tran == asked.tran && kind == asked.kind {
                Some(seconds)
            } else {
                None
            }
        }
        Ok(_) => None,
        Err(_) => None,
    }
}

fn is_from_station(asked: &Asked, header: &Header) -> bool
    ensures { IsTrue result ↔ IsFromStation asked.now header.now }
{
    header.dst.get() == asked.me.get() && header.src.get() == asked.station.get()
}
