//! What holds of every running turn, whatever messages come in between, for the crates above.
ghost use Rattle.std.specs.Prelude.{◌≡◌, ◌+◌, ◌*◌, ◌<◌, ◌≤◌, ◌⊎◌, ◌↔◌, ◌++◌, [], ◌∷◌, ℕ, Bool, true, List, Some};
ghost use Rattle.refresh_ring.specs.Places.{IsSlot, kinds, slot_count, is_refreshed};
ghost use Rattle.refresh_ring.specs.Jobs.{IsQueue, most_requests, requests_in, sends_ahead};
ghost use Rattle.refresh_ring.specs.Scheduled.{IsScheduled, Scheduled, after_changed, after_switch};
ghost use Rattle.refresh_ring.specs.Idle.{HasCauseToIdle, NothingIsDue, next_of, unless_too_soon};
ghost use Rattle.refresh_ring.specs.Picked.{picked};
ghost use Rattle.refresh_ring.specs.Left.{count_to, turns_left, turns_ahead, turns_for, turns_to_empty};
ghost use Rattle.refresh_ring.specs.Sent.{to_send, switch_in, goes_to, IsApart, IsDue, LessLeft};
ghost use Rattle.refresh_ring.specs.declared.kind.Kind.{Kind as KindOf};
ghost use Rattle.refresh_ring.specs.declared.job.Job.{Job as JobOf};
ghost use Rattle.refresh_ring.specs.declared.pick.Pick.TheVariants.{Idle, Place, Switch};

/// The four-turn argument for the ring: where a slot is refreshed, a turn sends its packet of this
/// kind, or leaves fewer turns until the ring does. The slots that are ever refreshed are to be
/// known; any cursor, jobs, preference and last destination will do.
pub fn four_turns()
    ensures falls { (ever : ℕ → Bool) (slot : ℕ) (kind : KindOf) (addresses : List ℕ)
        (s : Scheduled) → IsSlot slot → is_refreshed s.slots slot ≡ true
        → ((n : ℕ) → is_refreshed s.slots n ≡ true → ever n ≡ true)
        → ((picked addresses s).answer ≡ Place slot kind)
        ⊎ (turns_left ever slot kind (picked addresses s).state + 1 ≤ turns_left ever slot kind s) }
    ensures least { (ever : ℕ → Bool) (slot : ℕ) (kind : KindOf) (s : Scheduled) → IsSlot slot
        → ever slot ≡ true → 1 ≤ turns_left ever slot kind s }
    ensures most { (ever : ℕ → Bool) (slot : ℕ) (kind : KindOf) (s : Scheduled) → IsSlot slot
        → ever slot ≡ true → turns_left ever slot kind s ≤ 4 * kinds * count_to ever slot_count }
{}

/// The same for jobs: where a place waits and its slot is refreshed, a turn sends its packet, or
/// leaves the place waiting with fewer turns until it is sent, at most four for each send ahead and
/// four for itself.
pub fn changes_first()
    ensures falls { (slot : ℕ) (kind : KindOf) (addresses : List ℕ) (s : Scheduled) (n : ℕ)
        → turns_ahead slot kind s ≡ Some n → is_refreshed s.slots slot ≡ true
        → ((picked addresses s).answer ≡ Place slot kind)
        ⊎ ((m : ℕ) × (turns_ahead slot kind (picked addresses s).state ≡ Some m) × (m + 1 ≤ n)) }
    ensures least { (slot : ℕ) (kind : KindOf) (s : Scheduled) (n : ℕ)
        → turns_ahead slot kind s ≡ Some n → 1 ≤ n }
    ensures most { (slot : ℕ) (kind : KindOf) (s : Scheduled) (q : ℕ)
        → sends_ahead slot kind s.jobs ≡ Some q → (n : ℕ) × (turns_ahead slot kind s ≡ Some n)
        × (n ≤ 4 * (q + 1)) }

    // Messages leave the number as it is.
    ensures changed { (slot : ℕ) (kind : KindOf) (other : ℕ) (other_kind : KindOf) (s : Scheduled)
        (n : ℕ) → turns_ahead slot kind s ≡ Some n
        → turns_ahead slot kind (after_changed other other_kind s) ≡ Some n }
    ensures switch { (slot : ℕ) (kind : KindOf) (number : ℕ) (closed on : Bool) (s : Scheduled)
        (n : ℕ) → turns_ahead slot kind s ≡ Some n
        → turns_ahead slot kind (after_switch number closed on s) ≡ Some n }
    ensures refresh { (slot : ℕ) (kind : KindOf) (s : Scheduled) (slots : List Bool)
        → turns_ahead slot kind (record s { slots = slots }) ≡ turns_ahead slot kind s }

    // What comes behind leaves the sends ahead as they are, and what was changed in a refreshed
    // slot waits.
    ensures behind { (slot : ℕ) (kind : KindOf) (jobs more : List JobOf) (q : ℕ)
        → sends_ahead slot kind jobs ≡ Some q → sends_ahead slot kind (jobs ++ more) ≡ Some q }
    ensures bounded { (slot : ℕ) (kind : KindOf) (s : Scheduled) → is_refreshed s.slots slot ≡ true
        → (q : ℕ) × (sends_ahead slot kind (after_changed slot kind s).jobs ≡ Some q) }
{}

/// Switch requests are sent in order, each twice, and none is left for ever.
pub fn switches_in_order()
    // What a turn sends, and then is to send, is what was to send.
    ensures turn { (addresses : List ℕ) (s : Scheduled)
        → switch_in (picked addresses s).answer ++ to_send (picked addresses s).state.jobs
        ≡ to_send s.jobs }
    ensures changed { (slot : ℕ) (kind : KindOf) (s : Scheduled)
        → to_send (after_changed slot kind s).jobs ≡ to_send s.jobs }
    ensures asked { (number : ℕ) (closed on : Bool) (s : Scheduled)
        → requests_in s.jobs < most_requests
        → to_send (after_switch number closed on s).jobs
        ≡ to_send s.jobs ++ Switch number closed on ∷ Switch number closed on ∷ [] }
    ensures refused { (number : ℕ) (closed on : Bool) (s : Scheduled)
        → most_requests ≤ requests_in s.jobs → after_switch number closed on s ≡ s }

    // Of the jobs in front nothing is left to send, or a turn leaves fewer turns for them. The
    // others follow, and so do those that messages add.
    ensures falls { (addresses : List ℕ) (s : Scheduled) (front back : List JobOf)
        → s.jobs ≡ front ++ back → (to_send front ≡ [])
        ⊎ LessLeft front back (turns_for front s) (picked addresses s) }
    ensures done { (s : Scheduled) (front : List JobOf) → turns_for front s ≤ 4
        → to_send front ≡ [] }
    ensures changed_behind { (slot : ℕ) (kind : KindOf) (s : Scheduled) → (more : List JobOf)
        × ((after_changed slot kind s).jobs ≡ s.jobs ++ more) }
    ensures asked_behind { (number : ℕ) (closed on : Bool) (s : Scheduled) → (more : List JobOf)
        × ((after_switch number closed on s).jobs ≡ s.jobs ++ more) }

    // A queue holds the sends of 476 places and 32 requests at most: 4 * (476 + 2 * 32) turns and 4
    // more, 2,164.
    ensures most { (s : Scheduled) → IsQueue s.jobs → turns_for s.jobs s ≤ turns_to_empty + 4 }
{}

/// A packet does not go to the decoders that the last one went to, and the last destination is
/// kept.
pub fn neighbours()
    ensures apart { (addresses : List ℕ) (s : Scheduled)
        → IsApart s.last (goes_to addresses (picked addresses s).answer) }
    ensures last { (addresses : List ℕ) (s : Scheduled)
        → (picked addresses s).state.last ≡ goes_to addresses (picked addresses s).answer }
{}

/// What a turn sends is idle, the packet of a refreshed slot, or that of a switch request that
/// waits. No slot becomes refreshed by it, nor ceases to be.
pub fn picks_are_due()
    ensures is_due { (addresses : List ℕ) (s : Scheduled) → IsDue s (picked addresses s).answer }
    ensures slots { (addresses : List ℕ) (s : Scheduled)
        → (picked addresses s).state.slots ≡ s.slots }
{}

/// A turn sends idle only where nothing is due, or where the packet that is next goes to the
/// decoder that the last one went to. Any other turn sends what is next.
pub fn idle_has_a_cause()
    ensures cause { (addresses : List ℕ) (s : Scheduled) → (picked addresses s).answer ≡ Idle
        → HasCauseToIdle addresses s }
    ensures next { (addresses : List ℕ) (s : Scheduled)
        → (picked addresses s).answer ≡ unless_too_soon addresses s (next_of addresses s) }
    ensures nothing { (addresses : List ℕ) (s : Scheduled) → IsScheduled s
        → (next_of addresses s ≡ Idle) ↔ NothingIsDue s }
{}
