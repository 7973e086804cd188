//! Desks without requests, and where attempts begin.
use omega_desk::Desk;
use omega_mapreduce::CountedRequests;
use omega_model::{NoMemory, Settings};

#[test]
fn a_round_without_requests_leaves_no_work(rt: HostRuntime) -> Result<(), NoMemory> {
    let alloc = rt.alloc();
    let mut desk = Desk::new(alloc, &Settings::default(), 1);
    desk.begin(CountedRequests::new(alloc))?;
    assert!(rt; !desk.has_work());
    Ok(())
}

#[test]
fn starts_are_words_of_the_generator(rt: HostRuntime) -> Result<(), NoMemory> {
    let alloc = rt.alloc();
    let settings = Settings::default();
    assert_eq!(rt; Desk::new(alloc, &settings, 1).start(1 << 32), 0x0F5D_EBA9);
    assert_eq!(rt; Desk::new(alloc, &settings, 2).start(10), 0x7AA1_0266 % 10);
    assert_eq!(rt; Desk::new(alloc, &settings, 2).start(0), 0);
    Ok(())
}
