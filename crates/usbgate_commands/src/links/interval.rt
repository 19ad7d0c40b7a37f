//! How often the endpoints of a device have something to give.

ghost use Rattle.std.specs.Prelude.{◌≡◌, ◌≤◌};
ghost use Rattle.usbgate_commands.specs.links.Interval.{doubled, micros, part_micros, shorter, shortest};

use chapter9::Part;
use usb_base::{EpKind, Speed};

/// How many microseconds a frame has, at full and low speed.
pub const FRAME: u64 = 1000;

/// How many a microframe has, at high speed and above.
pub const MICROFRAME: u64 = 125;

/// A law: the units that definitions name are these.
pub fn interval_units()
    ensures frame { FRAME ≡ 1000 }
    ensures microframe { MICROFRAME ≡ 125 }
{}

/// The shortest interval in microseconds of the IN endpoints among these descriptors that have one.
#[tactic(auto, using(crate::proofs::lemmas::links::Intervals::shorter_assoc))]
pub fn shortest_micros(speed: Speed, parts: &[Part]) -> Option<u64>
    ensures { result ≡ shortest speed parts.now }
{
    let mut least = None;
    for part in parts {
        least = shorter(least, part_micros(speed, part));
    }
    least
}

/// The shorter of two intervals, where there are two.
fn shorter(one: Option<u64>, other: Option<u64>) -> Option<u64>
    ensures { result ≡ shorter one other }
{
    match (one, other) {
        (Some(one), Some(other)) => Some(one.min(other)),
        (Some(one), None) => Some(one),
        (None, other) => other,
    }
}

fn part_micros(speed: Speed, part: &Part) -> Option<u64>
    ensures { result ≡ part_micros speed part.now }
{
    match *part {
        Part::Endpoint {
            ep,
            kind,
            interval,
            ..
        } if ep.is_in() => micros(speed, kind, interval),
        _ => None,
    }
}

/// The interval in microseconds that an endpoint's bInterval tells (USB 2.0, table 9-13): in frames at full and low
/// speed, of an isochronous endpoint as a power of two, and in microframes as a power of two above.
fn micros(speed: Speed, kind: EpKind, interval: u8) -> Option<u64>
    ensures { result ≡ micros speed kind interval }
{
    match (speed, kind) {
        (Speed::High | Speed::Super, EpKind::Interrupt | EpKind::Iso) => doubled(
            MICROFRAME, interval,
        ),
        (_, EpKind::Iso) => doubled(FRAME, interval),
        (_, EpKind::Interrupt) if interval > 0 => Some(FRAME * u64::from(interval)),
        _ => None,
    }
}

/// The unit, doubled once less than the interval says, which is from 1 to 16.
fn doubled(unit: u64, interval: u8) -> Option<u64>
    requires { unit ≤ FRAME }
    ensures { result ≡ doubled unit interval }
{
    match interval {
        1..=16 => Some(unit << (interval - 1)),
        _ => None,
    }
}
