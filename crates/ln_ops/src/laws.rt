//! The law of reports, a function that does nothing and ensures it.
ghost use Rattle.std.specs.Prelude.{◌≡◌, ℕ, Bool, IsTrue, Some};
ghost use Rattle.ln_ops.specs.Sensor.{is_sensor, report_bytes, report_of};

/// The message of a report is read as that report.
pub fn reports_are_read()
    ensures read { (sensor : ℕ) (occupied : Bool) → IsTrue (is_sensor sensor)
        → report_of (report_bytes sensor occupied)
        ≡ Some (record { sensor = sensor; occupied = occupied }) }
{}
