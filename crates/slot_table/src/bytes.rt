//! The tests of a slot's bytes.
ghost use Rattle.std.specs.Prelude.{◌≡◌, IsTrue, true};
ghost use Rattle.slot_table.specs.{is_held, is_kind, is_stat, is_slot, is_address, state_of, kind_of};

use ln_ops::State;

/// Whether a slot in this state stands for a locomotive.
pub(crate) fn is_held(state: State) -> bool
    ensures { result ≡ is_held state }
{
    match state {
        State::Free => false,
        State::Common | State::Idle | State::InUse => true,
    }
}

/// Whether a locomotive may be in the slot.
pub(crate) fn is_slot(n: u8) -> bool
    ensures { result ≡ is_slot n }
{
    1 <= n && n <= 119
}

/// Whether a slot may hold the address.
pub(crate) fn is_address(address: u16) -> bool
    ensures { result ≡ is_address address }
{
    1 <= address && address <= 10239
}

/// The state in bits 5 and 4 of STAT1.
pub(crate) fn state_of(stat: u8) -> State
    ensures { result ≡ state_of stat }
{
    match stat / 16 % 4 {
        0 => State::Free,
        1 => State::Common,
        2 => State::Idle,
        _ => State::InUse,
    }
}

/// Whether a slot may have this STAT1.
pub(crate) fn is_stat(stat: u8) -> bool
    ensures stat { result ≡ is_stat stat }
    ensures kind { IsTrue result → is_kind (kind_of stat) ≡ true }
{
    stat < 64 && stat / 8 % 2 == 0 && is_kind(stat % 8)
}

// Whether a slot may have this decoder type.
fn is_kind(kind: u8) -> bool
    ensures { result ≡ is_kind kind }
{
    kind == 0 || kind == 2 || kind == 3 || kind == 4 || kind == 7
}
