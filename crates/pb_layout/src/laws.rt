//! Laws of lists, as functions with an empty body.
ghost use Rattle.std.specs.Prelude.{◌≡◌, ℕ, ◌<◌, ◌^◌, List};
ghost use Rattle.std.specs.List.{flat_map, AllByRecursion};
ghost use Rattle.std.specs.Int.{w16, to_be_bytes};
ghost use Rattle.pb_layout.specs.Kind.{Setting, setting_bytes, IsSetting};
ghost use Rattle.pb_layout.specs.Lists.{numbers_of, settings_of};

/// The bytes of numbers are those of one list of numbers, and the bytes of settings those of one list of settings: the
/// one that is read from them.
pub fn bytes_are_one_list()
    ensures numbers { (ns : List ℕ) → AllByRecursion (λ n. n < 2 ^ 16) ns
        → numbers_of (flat_map (to_be_bytes w16) ns) ≡ ns }
    ensures settings { (ss : List Setting) → AllByRecursion IsSetting ss
        → settings_of (flat_map setting_bytes ss) ≡ ss }
{}
