//! Worked values of the definitions.
ghost use Rattle.std.specs.Prelude.{◌≡◌, [], ◌∷◌, pos};
ghost use Rattle.pb_script.specs.declared.table.Shape.{Shape};
ghost use Rattle.pb_script.specs.Script.{record_len, ring_bytes, second_of};
ghost use Rattle.pb_script.specs.Station.{values_of};

use crate::table::Kind;

// Values, lengths and times of records.
fn records_are_worked()
    ensures { let hourly : Shape = record { size = 5; interval = 3600; kind = Kind.Fp2; count = 3 } in
        let events : Shape = record hourly { interval = 0; kind = Kind.Ascii } in
        (values_of Kind.Fp2 1 3 ≡ 0x40 ∷ 0x0A ∷ 0x40 ∷ 0x0B ∷ 0x40 ∷ 0x0C ∷ [])
        × (values_of Kind.Fp2 400 1 ≡ 0x40 ∷ 0x00 ∷ [])
        × (values_of Kind.Ascii 25 2 ≡ 0x5A ∷ 0x41 ∷ [])
        × (record_len hourly ≡ 6) × (ring_bytes events ≡ 55) × (second_of hourly 2 ≡ 7200)
        × (second_of events 2 ≡ 2) }
{}
