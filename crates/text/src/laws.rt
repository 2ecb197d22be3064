//! The law of hex text. It has no code: a call gives the law to its caller's proof.
ghost use Rattle.std.specs.Prelude.{◌≡◌, ◌≤◌, ℕ, List, true, Ok, length, nat_lt};
ghost use Rattle.std.specs.List.{list_all};
ghost use Rattle.text.specs.Hex.{hex_words};
ghost use Rattle.text.specs.HexText.{hex_of};

/// Bytes written as pairs are read back unchanged, unless the text is too long.
pub fn written_hex_is_read()
    ensures { (bytes : List ℕ) → list_all (λ byte. nat_lt byte 256) bytes ≡ true
        → length (hex_words bytes) ≤ 1048576 → hex_of (hex_words bytes) ≡ Ok bytes }
{}
