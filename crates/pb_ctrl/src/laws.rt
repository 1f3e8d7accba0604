//! Laws of the messages, as functions with an empty body.
ghost use Rattle.std.specs.Prelude.{◌≡◌, [], ◌∷◌};
ghost use Rattle.pb_layout.specs.Layout.{WrittenIsRead};
ghost use Rattle.pb_ctrl.specs.Message.{Hello, HelloReply, Bye, HelloRequest, Failure, GetSettings, GetSettingsReply, SetSettings, SetSettingsReply, keys, layout, message_bytes};

/// A message that was written reads as itself, alone and before whatever may follow it. What reads as a message is its
/// bytes and what may follow them, and nothing reads as two messages.
pub fn written_message_is_read()
    ensures { WrittenIsRead layout keys }
{}

/// The bytes of one message of each type, each of whose keys is another.
pub fn worked_messages()
    ensures hello { message_bytes (Hello 1 2 3 0x0405) ≡ 0x09 ∷ 1 ∷ 2 ∷ 3 ∷ 4 ∷ 5 ∷ [] }
    ensures hello_reply { message_bytes (HelloReply 1 2 3 0x0405) ≡ 0x89 ∷ 1 ∷ 2 ∷ 3 ∷ 4 ∷ 5 ∷ [] }
    ensures bye { message_bytes (Bye 1) ≡ 0x0D ∷ 1 ∷ [] }
    ensures hello_request { message_bytes (HelloRequest 1) ≡ 0x0E ∷ 1 ∷ [] }
    ensures failure { message_bytes
        (Failure 1 (record { err = 2; proto = 3; dst = 0x456; hops = 7; src = 0x89A; carried = 11 ∷ 12 ∷ [] }))
        ≡ 0x81 ∷ 1 ∷ 2 ∷ 0x34 ∷ 0x56 ∷ 0x78 ∷ 0x9A ∷ 11 ∷ 12 ∷ [] }
    ensures get_settings { message_bytes (GetSettings 1 0x0203 0x0405) ≡ 0x0F ∷ 1 ∷ 2 ∷ 3 ∷ 4 ∷ 5 ∷ [] }
    ensures get_settings_reply { message_bytes
        (GetSettingsReply 1 2 3 (0 ∷ 4 ∷ 0 ∷ 1 ∷ 5 ∷ [])) ≡ 0x8F ∷ 1 ∷ 2 ∷ 3 ∷ 0 ∷ 4 ∷ 0 ∷ 1 ∷ 5 ∷ [] }
    ensures set_settings { message_bytes
        (SetSettings 1 0x0203 (0 ∷ 4 ∷ 0 ∷ 1 ∷ 5 ∷ [])) ≡ 0x10 ∷ 1 ∷ 2 ∷ 3 ∷ 0 ∷ 4 ∷ 0 ∷ 1 ∷ 5 ∷ [] }
    ensures set_settings_reply { message_bytes (SetSettingsReply 1 2 0x0304) ≡ 0x90 ∷ 1 ∷ 2 ∷ 3 ∷ 4 ∷ [] }
{}
