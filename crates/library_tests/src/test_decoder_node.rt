//! The effect on decoders of packets that were worked out by hand from S-9.2 and S-9.2.1.

use arrayvec::ArrayVec;
use dcc_packet::{Module, Motion, Packet, Steps, read};
use decoder_cv::CvSet;
use decoder_node::{Accessory, Loco, NodeList, NodeSpec, Running};
use half_bits::halves;
use std::process::Abort;
use std::test::Fail;

/// Halves of 58 and 100 microseconds.
type Wave = ArrayVec<u16, 138>;

/// Appends two equal halves.
fn push_bit(wave: &mut Wave, bit: bool) {
    for _ in 0..2 {
        if !wave.is_full() {
            wave.push(if bit { 58 } else { 100 });
        }
    }
}

/// A wave of these bytes after 14 ones.
fn wave_of(bytes: &[u8]) -> Wave {
    let mut wave = Wave::new();
    for _ in 0..14 {
        push_bit(&mut wave, true);
    }
    for byte in bytes {
        push_bit(&mut wave, false);
        for place in 0..8_u8 {
            push_bit(&mut wave, (*byte << place) & 0x80 != 0);
        }
    }
    push_bit(&mut wave, true);
    wave
}

fn step(of: Steps, n: u8) -> Motion {
    Motion::Step { of, n }
}

fn running(motion: Motion, forward: bool, functions: u16) -> Running {
    Running {
        motion,
        forward,
        functions,
    }
}

/// A packet, and how the decoder runs after it.
type Row = (&'static [u8], Running);

fn first() -> Running {
    running(Motion::Stop, true, 0)
}

// The packets that a locomotive at address 3 with this CV29 hears, one after another, and how it
// runs after each.
fn hears_in_turn(rt: &impl Abort, cv29: u8, rows: &[Row]) -> Result<(), Fail> {
    let mut loco = Loco::new(CvSet::new(3, 0, 0, cv29)?);
    assert!(rt; loco.running() == first());
    for (bytes, then) in rows {
        loco.hear_all(wave_of(bytes).iter().copied());
        assert!(rt; loco.running() == *then, "{bytes:?}");
    }
    Ok(())
}

#[test]
fn a_locomotive_obeys_packets_in_turn(rt: HostRuntime) -> Result<(), Fail> {
    let fourteen: [Row; 3] = [
        (&[0x03, 0x68, 0x6B], running(step(Steps::S14, 7), true, 0)),
        // The light is a bit of the speed packet.
        (&[0x03, 0x78, 0x7B], running(step(Steps::S14, 7), true, 1)),
        // And group one leaves it.
        (&[0x03, 0x81, 0x82], running(step(Steps::S14, 7), true, 3)),
    ];
    let twenty_eight: [Row; 3] = [
        (&[0x03, 0x78, 0x7B], running(step(Steps::S28, 14), true, 0)),
        (&[0x03, 0x90, 0x93], running(step(Steps::S28, 14), true, 1)),
        (&[0x03, 0x81, 0x82], running(step(Steps::S28, 14), true, 2)),
    ];
    // Each group leaves the functions of the others.
    let groups: [Row; 5] = [
        (&[0x03, 0x9F, 0x9C], running(Motion::Stop, true, 0x1F)),
        (&[0x03, 0xBA, 0xB9], running(Motion::Stop, true, 0x15F)),
        (&[0x03, 0xA9, 0xAA], running(Motion::Stop, true, 0x135F)),
        (&[0x03, 0x84, 0x87], running(Motion::Stop, true, 0x1348)),
        (&[0x03, 0xB0, 0xB3], running(Motion::Stop, true, 0x1208)),
    ];
    hears_in_turn(&rt, 0, &fourteen)?;
    hears_in_turn(&rt, 2, &twenty_eight)?;
    hears_in_turn(&rt, 2, &groups)
}

#[test]
fn a_locomotive_obeys_broadcasts_and_not_what_is_for_others(rt: HostRuntime) -> Result<(), Fail> {
    let reversed: [Row; 3] = [
        (
            &[0x03, 0x3F, 0xC0, 0xFC],
            running(step(Steps::S128, 63), false, 0),
        ),
        // A broadcast stop leaves the direction, and Reset does not.
        (&[0x00, 0x51, 0x51], running(Motion::Emergency, false, 0)),
        (&[0x00, 0x00, 0x00], first()),
    ];
    // An unlisted form, another address, a wrong check.
    let not_for_it: [Row; 3] = [
        (&[0x03, 0x20, 0x23], first()),
        (&[0x04, 0x3F, 0xC0, 0xFB], first()),
        (&[0x03, 0x3F, 0xC0, 0xFD], first()),
    ];
    hears_in_turn(&rt, 3, &reversed)?;
    hears_in_turn(&rt, 2, &not_for_it)
}

#[test]
fn lost_power_forgets_all(rt: HostRuntime) -> Result<(), Fail> {
    let wave = wave_of(&[0x03, 0x3F, 0xC0, 0xFC]);
    let mut loco = Loco::new(CvSet::new(3, 0, 0, 2)?);
    loco.hear_all(wave.iter().copied());
    assert!(rt; loco.running() == running(step(Steps::S128, 63), true, 0));
    // The one that closed the packet would count for the next preamble.
    loco.power_lost();
    assert!(rt; loco.running() == first());
    loco.hear_all(wave.iter().skip(10).copied());
    assert!(rt; loco.running() == first());
    Ok(())
}

/// A packet, and the outputs of module 1 after it.
const OUTPUT_ROWS: [(&'static [u8], u8); 5] = [
    // Pair 0 closed on, pair 1 not closed on, pair 0 closed off, another module, the emergency stop
    // of locomotives.
    (&[0x81, 0xF9, 0x78], 0x02),
    (&[0x81, 0xFA, 0x7B], 0x06),
    (&[0x81, 0xF1, 0x70], 0x04),
    (&[0x82, 0xF9, 0x7B], 0x04),
    (&[0x00, 0x51, 0x51], 0x04),
];

#[test]
fn an_accessory_decoder_switches_its_outputs(rt: HostRuntime) -> Result<(), Fail> {
    let mut accessory = Accessory::new(Module::new(1).ok_or("no module")?);
    assert!(rt; accessory.outputs() == 0);
    for &(bytes, outputs) in &OUTPUT_ROWS {
        accessory.hear_all(wave_of(bytes).iter().copied());
        assert!(rt; accessory.outputs() == outputs, "{bytes:?}");
    }
    Ok(())
}

#[test]
fn a_list_of_decoders_is_filled_by_default(rt: HostRuntime) -> Result<(), Fail> {
    let loco = NodeSpec::Loco(CvSet::new(3, 0, 0, 0)?);
    assert!(rt; NodeList::new().len() == 0);
    assert!(rt; NodeSpec::default() == loco);
    Ok(())
}

/// Packets, always the same ones: a linear congruential generator gives their bytes.
#[derive(Drop)]
struct Packets {
    state: u16,
}

impl Packets {
    fn byte(&mut self) -> u8 {
        self.state = self.state.wrapping_mul(25173).wrapping_add(13849);
        (self.state / 256) as u8
    }

    /// For the decoders' own addresses, for others, for all, and some with a wrong check.
    fn packet(&mut self) -> Option<Packet> {
        let first = match self.byte() % 8 {
            0 => 0x00,
            1 | 2 => 0x81,
            3 => 0x04,
            _ => 0x03,
        };
        let second = self.byte();
        let check = first ^ second ^ u8::from(self.byte() < 32);
        if self.byte() < 64 {
            Packet::of(&[first, 0x3F, second, check ^ 0x3F])
        } else {
            Packet::of(&[first, second, check])
        }
    }
}

/// Decoders that hear packets at once, and decoders of the same kinds that hear them half by half.
#[derive(Drop)]
struct Pairs {
    locos: (Loco, Loco),
    accessories: (Accessory, Accessory),
}

impl Pairs {
    fn hear_packet(&mut self, packet: &Packet) {
        let instr = read(packet);
        self.locos.0.hear_packet(packet, &instr);
        self.locos.1.hear_all(halves(packet));
        self.accessories.0.hear_packet(packet, &instr);
        self.accessories.1.hear_all(halves(packet));
    }

    fn hear_halves(&mut self, halves: &[u16]) {
        self.locos.0.hear_all(halves.iter().copied());
        self.locos.1.hear_all(halves.iter().copied());
        self.accessories.0.hear_all(halves.iter().copied());
        self.accessories.1.hear_all(halves.iter().copied());
    }

    fn check(&self, rt: &impl Abort) {
        assert!(rt; self.locos.0.running() == self.locos.1.running());
        assert!(rt; self.accessories.0.outputs() == self.accessories.1.outputs());
    }
}

/// How many halves of a wave were heard before: none, a part of its preamble, all of that and a
/// half, the beginning of a byte, half of a bit in it, all its bits, and half a bit more.
const HEARD_BEFORE: [usize; 7] = [0, 9, 29, 30, 35, 46, 47];

#[test]
fn a_packet_at_once_does_what_its_halves_do(rt: HostRuntime) -> Result<(), Fail> {
    let module = Module::new(1).ok_or("no module")?;
    let cv = CvSet::new(3, 0, 0, 2)?;
    let mut pairs = Pairs {
        locos: (Loco::new(cv), Loco::new(cv)),
        accessories: (Accessory::new(module), Accessory::new(module)),
    };
    let mut packets = Packets { state: 1 };
    let mut changes = 0_usize;
    let before = wave_of(&[0x03, 0x68, 0x6B]);
    // After a packet 18 one halves suffice, and 17 do not.
    let probes = [wave_of(&[0x03, 0x81, 0x82]), wave_of(&[0x81, 0xFA, 0x7B])];
    for round in 0..40_usize {
        for cut in &HEARD_BEFORE {
            pairs.hear_halves(before.get(..*cut).unwrap_or(&[]));
            if round % 4 == 3 {
                pairs.hear_halves(&[75]);
            }
            let was = pairs.locos.0.running();
            pairs.hear_packet(&packets.packet().ok_or("no packet")?);
            pairs.check(&rt);
            changes = changes.wrapping_add(usize::from(pairs.locos.0.running() != was));
            for probe in &probes {
                pairs.hear_halves(probe.get(10 + round % 2..).unwrap_or(&[]));
                pairs.check(&rt);
            }
        }
    }
    // Of 280 packets more than half begin in the middle of a packet, and half of the others are for
    // others or have no effect.
    assert!(rt; changes > 20);
    Ok(())
}
