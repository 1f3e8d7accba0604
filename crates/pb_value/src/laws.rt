//! Laws of the texts that contracts cite.
ghost use Rattle.std.specs.Prelude.{◌≡◌, ℕ, ◌<◌, ◌∷◌, ◌++◌, List, pos, negsuc, codes};
ghost use Rattle.std.specs.List.{All};
ghost use Rattle.pb_value.specs.Escape.{ascii_text, name_text};
ghost use Rattle.pb_value.specs.TimeText.{time_text, year_start};

/// Pieces that are written one after another are the text of the whole. An ASCII text ends at its first zero
/// byte, so no piece follows one that has one.
pub fn pieces_of_texts_compose()
    ensures names { (a b : List ℕ) → name_text (a ++ b) ≡ name_text a ++ name_text b }
    ensures ascii { (a b : List ℕ) → All (λ byte. 0 < byte) a
        → ascii_text (a ++ b) ≡ ascii_text a ++ ascii_text b }
    ensures ended { (a b : List ℕ) → All (λ byte. 0 < byte) a
        → ascii_text (a ++ 0 ∷ b) ≡ ascii_text a }
{}

/// Known times have their known texts.
pub fn known_times_have_their_texts()
    ensures begin { year_start 90 ≡ 32872 }
    ensures zero { time_text (record { sec = pos 0; nano = pos 0 }) ≡ codes "1990-01-01 00:00:00" }
    ensures before { time_text (record { sec = negsuc 0; nano = pos 500000000 })
        ≡ codes "1989-12-31 23:59:59.500000000" }
    ensures leap_day { time_text (record { sec = pos 320675405; nano = pos 0 })
        ≡ codes "2000-02-29 12:30:05" }
    ensures wild { time_text (record { sec = pos 0; nano = negsuc 0 }) ≡ codes "00000000FFFFFFFF" }
{}
