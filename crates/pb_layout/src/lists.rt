//! How far lists of field numbers and of settings go.
ghost use Rattle.std.specs.Prelude.{◌≡◌, ◌+◌, ◌-◌, ◌<◌, ◌≤◌, ◌^◌, length, Ok, Err, IfOk, IfErr, OnOk};
ghost use Rattle.pb_base.specs.Fields.{Unread, unread};
ghost use Rattle.pb_layout.specs.Reading.{setting_at, settings_at};
ghost use Rattle.pb_layout.specs.Inside.{numbers_len};

use pb_base::MessageFault;

/// How many bytes there are before the first number that is 0, or before what is too short for a number.
pub(crate) fn numbers_len(bytes: &[u8]) -> usize
    ensures is { result ≡ numbers_len bytes.now }
    ensures within { result ≤ length bytes.now }
{
    let mut left = bytes;
    while let [high, low, after @ ..] = left {
        if *high == 0 && *low == 0 {
            break;
        }
        left = after;
    }
    bytes.len() - left.len()
}

/// Refuses the first field of the settings that can't be read; they are the last bytes of a message of this length.
pub(crate) fn check_settings(settings: &[u8], message_len: usize) -> Result<(), MessageFault>
    requires { length settings.now ≤ message_len }
    ensures read { OnOk result
        ((after : Unread) × (settings_at (length settings.now)
        (unread (message_len - length settings.now) settings.now) ≡ Ok after)) }
    ensures refused { IfErr result
        (λ fault. settings_at (length settings.now)
        (unread (message_len - length settings.now) settings.now) ≡ Err fault) }
{
    let mut left = settings;
    // Each setting has bytes, so there are at most as many.
    for _ in 0..settings.len() {
        if left.is_empty() {
            return Ok(());
        }
        match setting(left, message_len) {
            Ok(after) => left = after,
            Err(fault) => return Err(fault),
        }
    }
    Ok(())
}

// What is left after the first setting.
fn setting(bytes: &[u8], message_len: usize) -> Result<&[u8], MessageFault>
    requires { length bytes.now ≤ message_len }
    ensures read { IfOk result
        (λ left. setting_at (unread (message_len - length bytes.now) bytes.now) ≡ Ok
        (unread (message_len - length left.now) left.now)) }
    ensures shorter { IfOk result (λ left. length left.now ≤ length bytes.now) }
    ensures refused { IfErr result (λ fault. setting_at
        (unread (message_len - length bytes.now) bytes.now) ≡ Err fault) }
{
    let place = message_len - bytes.len();
    if bytes.len() < 2 {
        return Err(MessageFault::Malformed { at: place });
    }
    if bytes.len() < 4 {
        return Err(MessageFault::Malformed { at: place + 2 });
    }
    let len = usize::from(u16::from_be_bytes([bytes[2], bytes[3]]));
    if bytes.len() - 4 < len {
        return Err(MessageFault::Malformed { at: place + 4 });
    }
    Ok(&bytes[4 + len..])
}
