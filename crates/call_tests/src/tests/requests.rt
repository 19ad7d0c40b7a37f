//! Requests in flight: many calls with no memory left.

use control_route::Route;
use std::alloc::Global;
use std::test::Fail;
use unlink_race::{AskedBack, Live, LiveKind, Lives, StreamEnd};
use usb_base::{EpAddr, EpKind};
use usbip_urb::{Descs, MAX_LIVE};

fn request(alloc: Global, seqnum: u32, id: u64, kind: LiveKind) -> Live {
    Live {
        seqnum,
        id,
        kind,
        is_in: true,
        wanted: 13,
        flags: 0,
        packets: 0,
        descs: Descs::new(alloc),
        unlinker: None,
    }
}

fn wire() -> Result<LiveKind, Fail> {
    let ep = EpAddr::new(0x81).ok_or("no endpoint")?;
    let kind = EpKind::Bulk;
    Ok(LiveKind::Wire { ep, kind })
}

fn streaming() -> Result<EpAddr, Fail> {
    Ok(EpAddr::new(0x82).ok_or("no endpoint")?)
}

fn stream() -> Result<LiveKind, Fail> {
    let ep = streaming()?;
    Ok(LiveKind::Stream { ep, interface: 1 })
}

// One whose number is live isn't taken in, and none where there is no room.
fn take_in(lives: &mut Lives, live: Live) {
    if lives.abandoned() == 0 && lives.len() < MAX_LIVE && !lives.has(live.seqnum) {
        lives.push(live);
    }
}

fn ask_back(lives: &mut Lives, target: u32, by: u32) {
    let Some(place) = lives.place_of_number(target) else {
        return;
    };
    match lives.held_at(place).asked_back() {
        AskedBack::Already(_) => {}
        AskedBack::Taken => {
            lives.finish_at(place);
        }
        AskedBack::Cancel(_) | AskedBack::Waits => lives.mark_at(place, by),
    }
}

fn finish(lives: &mut Lives, id: u64) {
    if let Some(place) = lives.place_of_id(id) {
        lives.finish_at(place);
    }
}

fn one_call(lives: &mut Lives, alloc: Global, seed: u32) -> Result<(), Fail> {
    let number = seed >> 20;
    let id = u64::from(number);
    match seed >> 8 & 15 {
        0 | 1 => take_in(lives, request(alloc, number, id, stream()?)),
        2..=7 => take_in(lives, request(alloc, number, id, wire()?)),
        8 | 9 => ask_back(lives, number, seed),
        10 | 11 => finish(lives, id),
        12 => lives.drop_ended(&StreamEnd::Change(Route::Reset)),
        13 => {
            lives.finish_front(streaming()?);
        }
        _ => {
            lives.take_last();
        }
    }
    Ok(())
}

// No call after `make` asks for memory: where every allocation after its own one fails, this ends as ever.
#[test]
fn many_calls_with_no_memory_left(rt: HostRuntime) -> Result<(), Fail> {
    let mut lives = Lives::make(rt.alloc())?;
    let mut seed = 1u32;
    for _ in 0..5_000 {
        seed = seed.wrapping_mul(1_664_525).wrapping_add(1_013_904_223);
        one_call(&mut lives, rt.alloc(), seed)?;
    }
    assert!(rt; lives.len() <= 4096);
    Ok(())
}

fn three_requests(alloc: Global) -> Result<Lives, Fail> {
    let mut lives = Lives::make(alloc)?;
    for number in 1..4u32 {
        let id = u64::from(number) + 20;
        take_in(&mut lives, request(alloc, number, id, wire()?));
    }
    Ok(lives)
}

#[test]
fn an_id_gives_the_place_of_its_request(rt: HostRuntime) -> Result<(), Fail> {
    let mut lives = three_requests(rt.alloc())?;
    let place = lives.place_of_id(22).ok_or("no place")?;
    assert!(rt; place == 1 && lives.held_at(place).seqnum == 2);
    let live = lives.finish_at(place);
    assert!(rt; live.id == 22 && lives.len() == 2 && lives.place_of_id(22).is_none());
    Ok(())
}

#[test]
fn a_number_gives_the_place_of_its_request(rt: HostRuntime) -> Result<(), Fail> {
    let mut lives = three_requests(rt.alloc())?;
    let place = lives.place_of_number(3).ok_or("no place")?;
    lives.mark_at(place, 9);
    let live = lives.at(place).ok_or("no request")?;
    assert!(rt; place == 2 && live.unlinker == Some(9));
    Ok(())
}
