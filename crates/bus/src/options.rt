//! What a bus has beside its station.

/// What a bus has beside its station.
#[derive(Clone, Copy)]
pub struct BusOptions {
    /// Clients may request turns; otherwise these are refused.
    pub is_stepped: bool,
    /// There are sensors, which the caller lets answer interrogations: the station does not receive
    /// these.
    pub has_sensors: bool,
    /// There is a programmer, which the caller lets answer messages for slot 124: the station does
    /// not receive these.
    pub has_programmer: bool,
}
