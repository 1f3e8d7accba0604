//! PakCtrl messages, and the numbers of their types.

/// A PakCtrl message. `tran` is its transaction number: a reply has that of what it answers.
#[derive(Clone, Copy, Debug, PartialEq, Eq)]
pub enum Ctrl<'a> {
    /// Asks a neighbour whether it is there (PakBus, type 0x09). `router` is 1 where the sender is a router, `metric`
    /// the response time class, `verify` the seconds between verifications of the link.
    Hello {
        tran: u8,
        router: u8,
        metric: u8,
        verify: u16,
    },
    /// The answer to a hello (PakBus, type 0x89).
    HelloReply {
        tran: u8,
        router: u8,
        metric: u8,
        verify: u16,
    },
    /// The sender leaves the network (type 0x0D; its layout without keys is of this project).
    Bye {
        tran: u8,
    },
    /// Asks for a hello (type 0x0E; its layout without keys is of this project).
    HelloRequest {
        tran: u8,
    },
    /// A packet couldn't be delivered or understood (PakBus, type 0x81): 1 no route, 2 unknown protocol, 3 queue full,
    /// 4 unknown message, 5 malformed, 6 link failed. `proto` (0 to 15), `dst` (0 to 4095), `hops` (0 to 15) and `src`
    /// (0 to 4095) are those of that packet, `carried` the first of its message's bytes; that these are at most 8 is of
    /// this project.
    Failure {
        tran: u8,
        err: u8,
        proto: u8,
        dst: u16,
        hops: u8,
        src: u16,
        carried: &'a [u8],
    },
    /// Asks for the settings from the number `first` on (type 0x0F; its layout is of this project). `code` is the
    /// security code.
    GetSettings {
        tran: u8,
        code: u16,
        first: u16,
    },
    /// The answer to it (type 0x8F; its layout is of this project). `outcome` is 0 where the settings were given, and
    /// `more` isn't 0 where others follow. The settings are kept as their bytes: each a number and a length, both of two
    /// bytes, and then as many bytes.
    GetSettingsReply {
        tran: u8,
        outcome: u8,
        more: u8,
        settings: &'a [u8],
    },
    /// Changes settings (type 0x10; its layout is of this project).
    SetSettings {
        tran: u8,
        code: u16,
        settings: &'a [u8],
    },
    /// The answer to it (type 0x90; its layout is of this project). Where `outcome` isn't 0, `number` is that of the
    /// first setting that wasn't taken.
    SetSettingsReply {
        tran: u8,
        outcome: u8,
        number: u16,
    },
}

pub(crate) const HELLO: u8 = 0x09;

pub(crate) const HELLO_REPLY: u8 = 0x89;

pub(crate) const BYE: u8 = 0x0D;

pub(crate) const HELLO_REQUEST: u8 = 0x0E;

pub(crate) const FAILURE: u8 = 0x81;

pub(crate) const GET_SETTINGS: u8 = 0x0F;

pub(crate) const GET_SETTINGS_REPLY: u8 = 0x8F;

pub(crate) const SET_SETTINGS: u8 = 0x10;

pub(crate) const SET_SETTINGS_REPLY: u8 = 0x90;
