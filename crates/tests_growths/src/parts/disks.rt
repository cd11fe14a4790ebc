//! Disks in memory: one that gets none is refused, one takes memory where room is made, and after that no more.
use block_store::{MemoryDisk, Store, UNIT_LEN};
use std::alloc::{AllocError, Global};
use std::test::Fail;
use testkit_edits::again;
use testkit_edits::growths::{tell, used};
use testkit_tables::{Outcome, check};

fn works(store: &mut Store<MemoryDisk>) -> bool {
    let unit = [0x5A; UNIT_LEN];
    let mut out = [0; UNIT_LEN];
    store.blocks() == 8
        && store.write(6, &unit) == Ok(())
        && store.read(6, &mut out) == Ok(())
        && out == unit
}

fn use_new(alloc: Global) -> Result<Outcome, AllocError> {
    let mut store = Store::new(MemoryDisk::new(alloc, 8)?);
    store.make_room(6, 1)?;
    Ok(check(works(&mut store), "what a disk reads and writes"))
}

#[test]
fn memory_disks(rt: HostRuntime) -> Result<(), Fail> {
    let mut refused = 0u32;
    let answer = again!(refused, AllocError, use_new(rt.alloc()));
    tell(&rt, refused, used(answer))
}
