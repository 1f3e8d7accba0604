//! The words that name a peer.
ghost use Rattle.std.specs.Prelude.{◌≡◌, ℕ, List, ◌<◌, ◌^◌, length, MatchOption};
ghost use Rattle.pakbus.specs.Peer.{IsHost, IsListening, IsPeer, IsPort};

use pb_base::parse_decimal;

/// The host and the TCP port of a word `HOST:PORT`; `None` where it has another form. The port stands after the last
/// colon: 1 to 65535 in decimal digits, without a leading zero. A host may stand in brackets, as an address with
/// colons is written. `listen:PORT` names no host.
pub fn host_and_port(word: &str) -> Option<(&str, u16)>
    ensures { MatchOption result ((host : List ℕ) (port : ℕ) → port < 2 ^ 16
        → ¬ IsPeer word.now host port) (λ at. IsPeer word.now at.0.now at.1) }
{
    let (text, digits) = word.rsplit_once(':')?;
    if text == "listen" {
        return None;
    }
    let host = host_of(text)?;
    let port = port_of(digits)?;
    Some((host, port))
}

/// The TCP port of a word `listen:PORT`; `None` where it has another form.
pub fn listening_port(word: &str) -> Option<u16>
    ensures { MatchOption result ((port : ℕ) → port < 2 ^ 16 → ¬ IsListening word.now port)
        (λ port. IsListening word.now port) }
{
    match word.strip_prefix("listen:") {
        Some(digits) => port_of(digits),
        None => None,
    }
}

// The host that a text names, which isn't empty.
fn host_of(text: &str) -> Option<&str>
    ensures { MatchOption result ((host : List ℕ) → 0 < length host → ¬ IsHost text.now host)
        (λ host. IsHost text.now host.now × (0 < length host.now)) }
{
    let Some(rest) = text.strip_prefix("[") else {
        return some_host(text);
    };
    let host = rest.strip_suffix("]")?;
    some_host(host)
}

fn some_host(host: &str) -> Option<&str>
    ensures { MatchOption result (length host.now ≡ 0)
        (λ same. (same.now ≡ host.now) × (0 < length host.now)) }
{
    if host.is_empty() {
        return None;
    }
    Some(host)
}

// The port that digits write.
fn port_of(digits: &str) -> Option<u16>
    ensures { MatchOption result ((port : ℕ) → port < 2 ^ 16 → ¬ IsPort digits.now port)
        (λ port. IsPort digits.now port) }
{
    let port = parse_decimal(digits.as_bytes())?;
    if port == 0 || port > u32::from(u16::MAX) {
        return None;
    }
    Some(port as u16)
}
