//! The laws of lists of variables.
ghost use Rattle.std.specs.Prelude.{◌≡◌, ℕ, ◌<◌, [], ◌∷◌, false, length, Err, IsPermutation, IsTrue, List};
ghost use Rattle.std.specs.List.{filter};
ghost use Rattle.decoder_cv.specs.declared.cv_fault.CvFault.TheVariants.{BadList};
ghost use Rattle.decoder_cv.specs.declared.cv_pair.CvPair.{CvPair};
ghost use Rattle.decoder_cv.specs.Listed.{are_variables, is_number, is_read, listed, times};
ghost use Rattle.decoder_cv.specs.Settings.{settings_of};

/// A list of the four variables makes what they make one by one, and each of CV17 and CV18 may be left out of it.
pub fn lists_are_sets()
    ensures four { (a b c d : ℕ)
        → listed (record { number = 1; value = a } ∷ record { number = 17; value = b }
        ∷ record { number = 18; value = c } ∷ record { number = 29; value = d } ∷ [])
        ≡ settings_of a b c d }
    ensures without_17 { (a c d : ℕ)
        → listed (record { number = 1; value = a } ∷ record { number = 18; value = c }
        ∷ record { number = 29; value = d } ∷ []) ≡ settings_of a 192 c d }
    ensures without_18 { (a b d : ℕ)
        → listed (record { number = 1; value = a } ∷ record { number = 17; value = b }
        ∷ record { number = 29; value = d } ∷ []) ≡ settings_of a b 0 d }
    ensures two { (a d : ℕ)
        → listed (record { number = 1; value = a } ∷ record { number = 29; value = d } ∷ [])
        ≡ settings_of a 192 0 d }
{}

/// The order of the pairs is free: it changes no settings, and no fault.
pub fn order_is_free()
    ensures { (pairs others : List CvPair) → IsPermutation pairs others
        → listed others ≡ listed pairs }
{}

/// Variables other than CV1, CV17, CV18 and CV29 have no effect: where the numbers of a list are right they may all be
/// left out, and any that a list does not name may be put in.
pub fn others_have_no_effect()
    ensures left_out { (pairs : List CvPair) → IsTrue (are_variables pairs)
        → listed (filter is_read pairs) ≡ listed pairs }
    ensures put_in { (pair : CvPair) (pairs : List CvPair) → is_read pair ≡ false
        → IsTrue (is_number pair.number) → times pair.number pairs ≡ 0
        → listed (pair ∷ pairs) ≡ listed pairs }
{}

/// A list of more than 1,024 pairs is refused, as there are no more variables.
pub fn long_lists_are_refused()
    ensures { (pairs : List CvPair) → 1024 < length pairs → listed pairs ≡ Err BadList }
{}
