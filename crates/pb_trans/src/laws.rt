//! Laws of exchanges.
ghost use Rattle.std.specs.Prelude.{◌≡◌};
ghost use Rattle.pb_trans.specs.declared.asked.TheConstants.{FLOOD, WAIT_MAX};

/// The limits, as numbers.
pub fn law_limits()
    ensures flood { FLOOD ≡ 65536 }
    ensures wait { WAIT_MAX ≡ 60 }
{}
