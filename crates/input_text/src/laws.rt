//! The law of text written piece by piece. It has no code: a call gives the law to its caller's
//! proof.
ghost use Rattle.std.specs.Prelude.{ℕ, List, ◌++◌, Option};
ghost use Rattle.std.specs.Io.KnownBytes.{Appends};
ghost use Rattle.input_text.specs.Write.{AppendsFront};

/// A prefix of a text's first part is a prefix of the text, and so is the whole first part followed
/// by a prefix of the second.
pub fn fronts()
    ensures before { (old new : Option (List ℕ)) (text more : List ℕ) → AppendsFront old new text
        → AppendsFront old new (text ++ more) }
    ensures behind { (old now new : Option (List ℕ)) (text more : List ℕ) → Appends old now text
        → AppendsFront now new more → AppendsFront old new (text ++ more) }
{}
