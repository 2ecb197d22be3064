//! Explanations of slot data (LocoNet, slot data).
ghost use Rattle.std.specs.Prelude.{◌≡◌, ◌≤◌, ◌<◌, ◌+◌, ◌/◌, ◌%◌, ◌==◌, ◌++◌, length};
ghost use Rattle.arrayvec.specs.ArrayVec.{array_vec_len};
ghost use Rattle.describe.specs.Messages.{consist_words, is_forward, is_linked, kind_words, leader_words, locomotive_words, programming_words, slot_functions, slot_head, slot_label, slot_speed, slot_words, spd_words, stat_words, state_words, throttle_words, track_state, track_words, version_words};

use crate::fields::light_and_four;
use crate::packets::push_direction;
use crate::pieces::{
    Words, push_byte, push_eight_on, push_field, push_four_on, push_halves, push_text,
};
use ln_ops::SlotFields;

/// `slot N`.
#[tactic(auto, unfolding(crate::specs::Messages::slot_label))]
pub(crate) fn push_slot(words: &mut Words, slot: u8)
    requires { array_vec_len words.old + 10 ≤ 400 }
    ensures text { words.new.items ≡ words.old.items ++ slot_label slot }
    ensures len { array_vec_len words.new ≤ array_vec_len words.old + 10 }
{
    push_byte(words, "slot ", slot);
}

/// `stop`, `emergency stop` or `speed N of 126`.
pub(crate) fn push_spd(words: &mut Words, spd: u8)
    requires { array_vec_len words.old + 20 ≤ 400 }
    ensures text { words.new.items ≡ words.old.items ++ spd_words spd }
    ensures len { array_vec_len words.new ≤ array_vec_len words.old + 20 }
{
    match spd {
        0 => push_text(words, "stop"),
        1 => push_text(words, "emergency stop"),
        _ => {
            push_field(words, "speed ", u16::from(spd - 1));
            push_text(words, " of 126");
        }
    }
}

/// Whether DIRF means forward.
pub(crate) fn is_forward(dirf: u8) -> bool
    ensures { result ≡ is_forward dirf }
{
    dirf / 32 % 2 == 0
}

/// Bits 5 and 4 of STAT1.
fn state_words(number: u8) -> &'static str
    ensures text { result.now ≡ state_words number }
    ensures len { length result.now ≤ 6 }
{
    match number {
        0 => "free",
        1 => "common",
        2 => "idle",
        _ => "in use",
    }
}

/// Bits 2 to 0 of STAT1.
fn kind_words(kind: u8) -> &'static str
    ensures text { result.now ≡ kind_words kind }
    ensures len { length result.now ≤ 29 }
{
    match kind {
        0 => ", 28 steps",
        1 => ", 28 steps trinary",
        2 => ", 14 steps",
        3 => ", 128 steps",
        4 => ", 28 steps, consists allowed",
        7 => ", 128 steps, consists allowed",
        _ => ", unknown steps",
    }
}

/// Bits 3 and 6 of STAT1.
fn consist_words(down: bool, up: bool) -> &'static str
    ensures text { result.now ≡ consist_words down up }
    ensures len { length result.now ≤ 18 }
{
    match (down, up) {
        (true, true) => ", inside a consist",
        (true, false) => ", top of a consist",
        (false, true) => ", end of a consist",
        (false, false) => "",
    }
}

/// STAT1.
#[tactic(auto, unfolding(crate::specs::Messages::stat_words))]
pub(crate) fn push_stat(words: &mut Words, stat: u8)
    requires { array_vec_len words.old + 53 ≤ 400 }
    ensures text { words.new.items ≡ words.old.items ++ stat_words stat }
    ensures len { array_vec_len words.new ≤ array_vec_len words.old + 53 }
{
    push_text(words, state_words(stat / 16 % 4));
    push_text(words, kind_words(stat % 8));
    push_text(words, consist_words(stat / 8 % 2 == 1, is_linked(stat)));
}

/// Whether STAT1 links the slot to another.
fn is_linked(stat: u8) -> bool
    ensures { result ≡ is_linked stat }
{
    stat / 64 % 2 == 1
}

/// The slot whose speed counts.
#[tactic(auto, unfolding(crate::specs::Messages::leader_words))]
fn push_leader(words: &mut Words, slot: u8)
    requires { array_vec_len words.old + 20 ≤ 400 }
    ensures text { words.new.items ≡ words.old.items ++ leader_words slot }
    ensures len { array_vec_len words.new ≤ array_vec_len words.old + 20 }
{
    push_byte(words, "speed of slot ", slot);
}

/// The speed of a slot, or the slot whose speed counts.
#[tactic(auto, unfolding(crate::specs::Messages::slot_speed))]
fn push_slot_speed(words: &mut Words, stat: u8, spd: u8)
    requires { array_vec_len words.old + 20 ≤ 400 }
    ensures text { words.new.items ≡ words.old.items ++ slot_speed stat spd }
    ensures len { array_vec_len words.new ≤ array_vec_len words.old + 20 }
{
    if is_linked(stat) {
        push_leader(words, spd);
    } else {
        push_spd(words, spd);
    }
}

/// The names of those of F0 to F8 that are on.
#[tactic(auto, unfolding(crate::specs::Messages::slot_functions))]
fn push_slot_functions(words: &mut Words, dirf: u8, snd: u8)
    requires { array_vec_len words.old + 90 ≤ 400 }
    ensures text { words.new.items ≡ words.old.items ++ slot_functions dirf snd }
    ensures len { array_vec_len words.new ≤ array_vec_len words.old + 90 }
{
    let first = light_and_four(dirf);
    if first + u16::from(snd % 16) != 0 {
        push_text(words, ",");
        push_eight_on(words, 0, first);
        push_four_on(words, 5, u16::from(snd));
        push_text(words, " on");
    }
}

/// TRK.
#[tactic(auto, unfolding(crate::specs::Messages::track_words))]
fn push_track(words: &mut Words, trk: u8)
    requires { array_vec_len words.old + 43 ≤ 400 }
    ensures text { words.new.items ≡ words.old.items ++ track_words trk }
    ensures len { array_vec_len words.new ≤ array_vec_len words.old + 43 }
{
    push_text(words, track_state(trk));
    push_text(words, programming_words(trk));
    push_text(words, version_words(trk));
}

/// Bits 0 and 1 of TRK.
fn track_state(trk: u8) -> &'static str
    ensures text { result.now ≡ track_state trk }
    ensures len { length result.now ≤ 14 }
{
    match (trk % 2, trk / 2 % 2) {
        (0, _) => "; track off",
        (_, 0) => "; track paused",
        _ => "; track on",
    }
}

/// Bit 3 of TRK.
fn programming_words(trk: u8) -> &'static str
    ensures text { result.now ≡ programming_words trk }
    ensures len { length result.now ≤ 13 }
{
    match trk / 8 % 2 {
        1 => ", programming",
        _ => "",
    }
}

/// Bit 2 of TRK.
fn version_words(trk: u8) -> &'static str
    ensures text { result.now ≡ version_words trk }
    ensures len { length result.now ≤ 16 }
{
    match trk / 4 % 2 {
        1 => "",
        _ => ", no LocoNet 1.1",
    }
}

/// The number of a throttle, if it has sent one.
#[tactic(auto, unfolding(crate::specs::Messages::throttle_words))]
fn push_throttle(words: &mut Words, number: u16)
    requires { array_vec_len words.old + 16 ≤ 400 }
    ensures text { words.new.items ≡ words.old.items ++ throttle_words number }
    ensures len { array_vec_len words.new ≤ array_vec_len words.old + 16 }
{
    if number != 0 {
        push_field(words, "; throttle ", number);
    }
}

/// The locomotive of a slot.
#[tactic(auto, unfolding(crate::specs::Messages::locomotive_words))]
fn push_locomotive(words: &mut Words, high: u8, low: u8)
    requires { array_vec_len words.old + 18 ≤ 400 }
    ensures text { words.new.items ≡ words.old.items ++ locomotive_words high low }
    ensures len { array_vec_len words.new ≤ array_vec_len words.old + 18 }
{
    push_halves(words, ": locomotive ", high, low);
}

/// The first half of slot data: locomotive, STAT1 and speed.
#[tactic(auto, unfolding(crate::specs::Messages::slot_head))]
fn push_slot_head(words: &mut Words, fields: &SlotFields)
    requires { array_vec_len words.old + 110 ≤ 400 }
    ensures text { words.new.items ≡ words.old.items ++ slot_head fields.now }
    ensures len { array_vec_len words.new ≤ array_vec_len words.old + 110 }
{
    push_slot(words, fields.slot);
    push_locomotive(words, fields.adr2, fields.adr);
    push_text(words, ", ");
    push_stat(words, fields.stat);
    push_text(words, ", ");
    push_slot_speed(words, fields.stat, fields.spd);
}

/// The data of a slot of a locomotive.
#[tactic(auto, unfolding(crate::specs::Messages::slot_words))]
pub(crate) fn push_slot_data(words: &mut Words, fields: &SlotFields)
    requires { array_vec_len words.old + 270 ≤ 400 }
    ensures text { words.new.items ≡ words.old.items ++ slot_words fields.now }
    ensures len { array_vec_len words.new ≤ array_vec_len words.old + 270 }
{
    push_slot_head(words, fields);
    push_direction(words, is_forward(fields.dirf));
    push_slot_functions(words, fields.dirf, fields.snd);
    push_track(words, fields.trk);
    push_throttle(words, u16::from(fields.id2) * 128 + u16::from(fields.id1));
}
