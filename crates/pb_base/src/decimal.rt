//! Numbers as words of decimal digits.
ghost use Rattle.std.specs.Prelude.{◌≡◌, ℕ, ◌<◌, ◌^◌, MatchOption, decimal};

/// The number below 2^32 that a word writes in decimal digits: without a sign, and without a leading zero but in `0` itself.
/// `None` where no number is written so.
pub fn parse_decimal(word: &[u8]) -> Option<u32>
    ensures { MatchOption result ((n : ℕ) → n < 2 ^ 32 → word.now ≡ decimal n → ⊥)
        (λ n. word.now ≡ decimal n) }
{
    let text = match std::str::from_utf8(word) {
        Ok(text) => text,
        Err(_) => return None,
    };
    let n = match text.parse::<u32>() {
        Ok(n) => n,
        Err(_) => return None,
    };
    // Printed back: `parse` takes a plus and leading zeros too.
    if itoa::Buffer::new().format(n).as_bytes() != word {
        return None;
    }
    Some(n)
}
