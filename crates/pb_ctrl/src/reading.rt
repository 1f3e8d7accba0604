//! Reads a message: its type says which.
ghost use Rattle.pb_base.specs.Fields.{whole};
ghost use Rattle.pb_layout.specs.Reading.{reading, Gives};
ghost use Rattle.pb_ctrl.specs.Message.{message_of, layout, MessageIsRead};

use crate::failure::read_failure;
use crate::hello::{read_hello, read_hello_reply};
use crate::message::{
    BYE, Ctrl, FAILURE, GET_SETTINGS, GET_SETTINGS_REPLY, HELLO, HELLO_REPLY, HELLO_REQUEST,
    SET_SETTINGS, SET_SETTINGS_REPLY,
};
use crate::settings::{
    read_get_settings, read_get_settings_reply, read_set_settings, read_set_settings_reply,
};
use pb_base::MessageFault;
use pb_layout::Keys;

/// Reads a PakCtrl message. Bytes after a layout's end are passed over.
pub fn read(message: &[u8]) -> Result<Ctrl, MessageFault>
    ensures { MessageIsRead message.now result }
{
    read_all(message)
}

#[tactic(auto, unfolding(pb_layout::specs::Reading::reading))]
fn read_all(message: &[u8]) -> Result<Ctrl, MessageFault>
    ensures { Gives message_of result (reading layout (whole message.now)) }
{
    let mut keys = Keys::new(message);
    let kind = keys.byte()?;
    let tran = keys.byte()?;
    match kind {
        HELLO => read_hello(tran, &mut keys),
        HELLO_REPLY => read_hello_reply(tran, &mut keys),
        BYE => Ok(Ctrl::Bye { tran }),
        HELLO_REQUEST => Ok(Ctrl::HelloRequest { tran }),
        FAILURE => read_failure(tran, &mut keys),
        GET_SETTINGS => read_get_settings(tran, &mut keys),
        GET_SETTINGS_REPLY => read_get_settings_reply(tran, &mut keys),
        SET_SETTINGS => read_set_settings(tran, &mut keys),
        SET_SETTINGS_REPLY => read_set_settings_reply(tran, &mut keys),
        _ => Err(MessageFault::UnknownType(kind)),
    }
}
