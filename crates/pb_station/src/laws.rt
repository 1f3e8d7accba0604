//! Laws of what a station answers.
ghost use Rattle.std.specs.Prelude.{◌≡◌, ◌≤◌, ◌↔◌, ℕ, List, length, Ok};
ghost use Rattle.std.specs.List.{AllByRecursion, flat_map};
ghost use Rattle.pb_base.specs.declared.layout.Layout.{Layout};
ghost use Rattle.pb_base.specs.Fields.{IsBytes, whole};
ghost use Rattle.pb_base.specs.Record.{content_len, run_len};
ghost use Rattle.pb_layout.specs.Kind.{Setting, setting_bytes, IsSetting};
ghost use Rattle.pb_layout.specs.Reading.{reading};
ghost use Rattle.pb_ctrl.specs.Message as ctrl;
ghost use Rattle.pb_bmp5.specs.Message as bmp5;
ghost use Rattle.pb_station.specs.Settings.{settings_in};
ghost use Rattle.pb_base.specs.History.{TableKey, History};
ghost use Rattle.pb_packet.specs.declared.headers.Header.{Header};
ghost use Rattle.pb_bmp5.specs.Message.{CollectKeys};
ghost use Rattle.pb_station.specs.State.{KeptStation, State, StandsFor};
ghost use Rattle.pb_station.specs.Collect.{numbered, room_of, bytes_max, records_max};
ghost use Rattle.pb_station.specs.Answer.{answer_of};
ghost use Rattle.pb_station.specs.Truth.{TellsTable, IsCollect, request_of, AnswersFully};

/// What a station answers to a collect command is a full reply, over every history whose records of the table are those
/// that were stored in it: it is true at the table's present stage, or it has another response code than 0.
pub fn collect_is_answered_fully()
    ensures { (kept : KeptStation) (s : State) (header : Header) (message : List ℕ) (tran : ℕ)
        (c : CollectKeys)
        (history : TableKey → History) → StandsFor kept s → IsCollect s header message tran c
        → TellsTable (numbered s.tables c.table) c.sig (history (request_of header tran c).table)
        → AnswersFully s header tran c history (answer_of s header message) }
{}

/// What a station reads of a message is what the message's bytes read as.
pub fn messages_are_read()
    ensures ctrl { (m : ctrl.Message) (bytes : List ℕ) → IsBytes bytes
        → (reading ctrl.layout (whole bytes) ≡ Ok m) ↔ ctrl.MessageReads m bytes }
    ensures bmp5 { (m : bmp5.Message) (bytes : List ℕ) → IsBytes bytes
        → (reading bmp5.layout (whole bytes) ≡ Ok m) ↔ bmp5.MessageReads m bytes }
{}

/// Settings that are set are those whose bytes were sent.
pub fn settings_are_their_bytes()
    ensures { (settings : List Setting) → AllByRecursion IsSetting settings
        → let bytes = flat_map setting_bytes settings in settings_in (length bytes) bytes ≡ settings }
{}

/// A reply has as many records as have room: so many have at most 960 bytes and are at most 32,767.
pub fn a_reply_is_filled()
    ensures { (layout : Layout) (n : ℕ) → content_len layout ≤ bytes_max → 1 ≤ n
        → (n ≤ room_of layout) ↔ ((n ≤ records_max) × (run_len layout n ≤ bytes_max)) }
{}
