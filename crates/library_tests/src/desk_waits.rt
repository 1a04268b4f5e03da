//! That a filing wakes who waits at a desk.
use crate::scenarios::{PAIR, logs_of_run, stage_of};
use gen_desk::{Desk, Slip};
use gen_log::SealedLog;
use std::alloc::Global;
use std::sync::atomic::{AtomicBool, Ordering};
use std::sync::{Mutex, Wait};
use std::test::*;
use std::{mem, thread};

/// Gives all slips up.
fn give_up_all(slips: Vec<Slip>) {
    let mut slips = slips;
    while let Some(slip) = slips.pop() {
        let _place = slip.give_up();
    }
    slips.destroy_empty();
}

/// Files a log by a slip. Whether it was filed.
fn is_filed<R: Wait>(rt: &R, desk: &Desk, slip: Slip, log: &SealedLog) -> bool {
    match desk.file_shared(rt, slip, log) {
        Ok(_receipt) => true,
        Err((slip, _fault)) => {
            let _place = slip.give_up();
            false
        }
    }
}

/// Files a log by the last slip, and gives the others up. Whether it was filed.
fn file_last<R: Wait>(rt: &R, desk: &Desk, slips: Vec<Slip>, log: &SealedLog) -> bool {
    let mut slips = slips;
    let filed = match slips.pop() {
        Some(slip) => is_filed(rt, desk, slip, log),
        None => false,
    };
    give_up_all(slips);
    filed
}

/// Loads a flag until it is set, at most so many times, and returns whether it was.
fn is_set_within(flag: &AtomicBool, times: u32) -> bool {
    for _ in 0..times {
        if flag.load(Ordering::SeqCst) {
            return true;
        }
    }
    false
}

/// Waits until something is to be claimed or the test is over, and says so before.
fn wait_for_claim<R: Wait>(rt: &R, desk: &Desk, waits: &AtomicBool, over: &AtomicBool) -> bool {
    for _ in rt.forever() {
        let key = desk.prepare_wait();
        let claimed = matches!(desk.claim(rt), Ok(Some(_)));
        if claimed || over.load(Ordering::SeqCst) {
            over.store(true, Ordering::SeqCst);
            return claimed;
        }
        waits.store(true, Ordering::SeqCst);
        key.wait(rt);
    }
    unreachable!()
}

/// Files a log while somebody waits for it, and returns whether that was enough. Then the test is over, and
/// all are woken.
fn file_for_waiter<R: Wait>(
    rt: &R,
    alloc: Global,
    desk: &Desk,
    slips: &Mutex<Vec<Slip>>,
    log: &SealedLog,
    waits: &AtomicBool,
    over: &AtomicBool,
) -> bool {
    let waited = is_set_within(waits, 1_000_000_000);
    let never = AtomicBool::new(false);
    let _asleep = is_set_within(&never, 10_000_000);
    let held = mem::replace(&mut *slips.lock(rt), Vec::new(alloc));
    let filed = file_last(rt, desk, held, log);
    let woken = is_set_within(over, 1_000_000_000);
    over.store(true, Ordering::SeqCst);
    desk.wake_all();
    waited && filed && woken
}

#[test]
fn a_filing_wakes_who_waits(rt: HostRuntime) -> Result<(), Fail> {
    let stage = stage_of(rt.alloc(), PAIR)?;
    let logs = logs_of_run(rt.alloc(), &stage.scenario)?;
    let log = logs.as_slice().first().ok_or("no log")?;
    let (desk, slips) = Desk::new(rt.alloc(), 1)?;
    let (waits, over) = (AtomicBool::new(false), AtomicBool::new(false));
    let slips = Mutex::new(slips);
    let (at, alloc, with, held) = (&rt, rt.alloc(), &desk, &slips);
    let (word, end) = (&waits, &over);
    let (claimed, woken) = thread::join(
        &rt,
        move || wait_for_claim(at, with, word, end),
        move || file_for_waiter(at, alloc, with, held, log, word, end),
    );
    give_up_all(slips.into_inner());
    assert!(rt; claimed && woken);
    Ok(())
}
