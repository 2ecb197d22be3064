//! What a call finds, for C.
ghost use Rattle.station_c.specs.Found.{Overwrites};

/// Writes what was found, if anything was, over `place`. Returns whether it did.
pub(crate) fn overwrite<T: Copy>(place: &mut T, found: Option<T>) -> bool
    ensures { Overwrites found result place.old place.new }
{
    match found {
        Some(value) => {
            *place = value;
            true
        }
        None => false,
    }
}
