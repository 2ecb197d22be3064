//! Laws of the log. They have no code: a call gives the law to its caller's proof.
ghost use Rattle.std.specs.Prelude.{◌≡◌, None, true, ℕ};
ghost use Rattle.bus_log.specs.Lines.{has_no_effect};
ghost use Rattle.ln_ops.specs.declared.op.Op.{Op as OpOf};
ghost use Rattle.station_core.specs.After.{after};
ghost use Rattle.station_core.specs.Answer.{answer};
ghost use Rattle.station_core.specs.Powered.{PoweredDesk};

/// A message that the log calls ignored changes nothing of a station and is not answered, whatever
/// its slots, its power and its queue are.
pub fn ignored_messages_have_no_effect()
    ensures { (op : OpOf) → has_no_effect op ≡ true → (powered : PoweredDesk) (waiting : ℕ)
        → (after powered op ≡ powered) × (answer powered op waiting ≡ None) }
{}
