//! The laws of motion, each as a function that does nothing and ensures it: a call hands the law to
//! a proof.
ghost use Rattle.std.specs.Prelude.{◌≡◌, ℕ, ◌+◌, ◌*◌, ◌/◌, ◌≤◌, ◌<◌, Bool, IsTrue, None, Some, false, true};
ghost use Rattle.motion.specs.declared.velocity.Drive.{Drive};
ghost use Rattle.motion.specs.declared.velocity.Momentum.{Momentum};
ghost use Rattle.motion.specs.declared.velocity.Velocity.{Velocity};
ghost use Rattle.motion.specs.Velocity.{IsStandstillBetween, braking_way, goes_only, is_facing, is_momentum, ramp, same_bool, velocity, velocity_after, way, way_in};

/// However a time is cut in which a train is asked for the same, it has the same velocity in the
/// end, and goes as far: in all, and in each direction.
pub fn times_add_up()
    ensures velocity { (drive : Drive) (v : Velocity) (these those : ℕ)
        → velocity_after drive (these + those) v
        ≡ velocity_after drive those (velocity_after drive these v) }
    ensures way { (drive : Drive) (v : Velocity) (these those : ℕ)
        → way drive (these + those) v
        ≡ way drive these v + way drive those (velocity_after drive these v) }
    ensures way_in { (forward : Bool) (drive : Drive) (v : Velocity) (these those : ℕ)
        → way_in forward drive (these + those) v
        ≡ way_in forward drive these v
        + way_in forward drive those (velocity_after drive these v) }
    ensures both { (drive : Drive) (v : Velocity) (micros : ℕ)
        → way drive micros v ≡ way_in true drive micros v + way_in false drive micros v }
{}

/// A train reaches exactly the speed that it is asked for, in the time that its momentum gives, and
/// keeps it. It never passes it.
pub fn speeds_are_reached()
    ensures up { (drive : Drive) (momentum : Momentum) (v : Velocity) (micros : ℕ)
        → drive.momentum ≡ Some momentum → IsTrue (is_facing drive v) → v.speed ≤ drive.speed
        → drive.speed ≤ v.speed + micros * momentum.acceleration → 0 < micros
        → velocity_after drive micros v ≡ velocity drive.forward drive.speed }
    ensures down { (drive : Drive) (momentum : Momentum) (v : Velocity) (micros : ℕ)
        → drive.momentum ≡ Some momentum → IsTrue (is_facing drive v) → drive.speed ≤ v.speed
        → v.speed ≤ drive.speed + micros * momentum.braking → 0 < micros
        → velocity_after drive micros v ≡ velocity drive.forward drive.speed }
    ensures stays { (drive : Drive) (micros : ℕ)
        → velocity_after drive micros (velocity drive.forward drive.speed)
        ≡ velocity drive.forward drive.speed }
    ensures below { (drive : Drive) (momentum : Momentum) (v : Velocity) (micros : ℕ)
        → drive.momentum ≡ Some momentum → IsTrue (is_facing drive v) → v.speed ≤ drive.speed
        → (v.speed ≤ (velocity_after drive micros v).speed)
        × ((velocity_after drive micros v).speed ≤ drive.speed) }
    ensures above { (drive : Drive) (momentum : Momentum) (v : Velocity) (micros : ℕ)
        → drive.momentum ≡ Some momentum → IsTrue (is_facing drive v) → drive.speed ≤ v.speed
        → (drive.speed ≤ (velocity_after drive micros v).speed)
        × ((velocity_after drive micros v).speed ≤ v.speed) }
{}

/// After its ramp a train has exactly the velocity that it is asked for, also one that goes the other
/// way at first.
pub fn ramps_end()
    ensures { (drive : Drive) (v : Velocity) (micros : ℕ) → IsTrue (is_momentum drive.momentum)
        → ramp drive v ≤ micros
        → velocity_after drive micros v ≡ velocity drive.forward drive.speed }
{}

/// How far a train goes while it gathers speed evenly; and until it stands, in whichever direction
/// it is to go then.
pub fn ways_are_closed_forms()
    ensures gathering { (drive : Drive) (momentum : Momentum) (speed micros : ℕ)
        → drive.momentum ≡ Some momentum
        → speed + micros * momentum.acceleration ≤ drive.speed
        → way drive micros (velocity drive.forward speed)
        ≡ micros * speed + momentum.acceleration * (micros * (micros + 1) / 2) }
    ensures braking { (drive : Drive) (momentum : Momentum) (v : Velocity) (micros : ℕ)
        → drive.momentum ≡ Some momentum → 0 < momentum.braking → drive.speed ≡ 0
        → v.speed / momentum.braking < micros
        → way drive micros v ≡ braking_way v.speed momentum.braking }
    ensures stands { (drive : Drive) (momentum : Momentum) (v : Velocity) (micros : ℕ)
        → drive.momentum ≡ Some momentum → 0 < momentum.braking → drive.speed ≡ 0
        → v.speed / momentum.braking < micros → (velocity_after drive micros v).speed ≡ 0 }
{}

/// With momentum a train that goes the other way stood still between.
pub fn reversals_stand_still()
    ensures between { (drive : Drive) (momentum : Momentum) (v : Velocity) (micros : ℕ)
        → drive.momentum ≡ Some momentum
        → same_bool v.forward (velocity_after drive micros v).forward ≡ false
        → IsStandstillBetween drive micros v }
{}

/// Without momentum a train has at once the velocity that it is asked for, in all of the time.
pub fn without_momentum_at_once()
    ensures velocity { (drive : Drive) (v : Velocity) (micros : ℕ)
        → drive.momentum ≡ None → 0 < micros
        → velocity_after drive micros v ≡ velocity drive.forward drive.speed }
    ensures way { (drive : Drive) (v : Velocity) (micros : ℕ)
        → drive.momentum ≡ None → way drive micros v ≡ drive.speed * micros }
    ensures direction { (drive : Drive) (v : Velocity) (micros : ℕ)
        → drive.momentum ≡ None → IsTrue (goes_only drive.forward drive micros v) }
{}
