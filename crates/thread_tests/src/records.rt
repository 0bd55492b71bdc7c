//! The records of a thread, in its own data.

use crate::played::goes_well;

// More than a byte or 16 bits count.
const MANY: usize = 70_000;

// It refuses an `acquire_resource` that answers `NoMemory` at each call or at some later one, a
// `release_resource` that forgets a key that was not released, records that take less of a key than
// all of it, and those that outlive a registration.
#[test]
fn a_thread_records_each_key_as_often_as_it_holds_it(rt: HostRuntime) {
    let scene = "
        lot 1
        caller
        come
        repeat 2 acquire 5
        acquire 7
        records 5 -> 2
        records 7 -> 1
        release 5
        release 9
        records 5 -> 1
        records 9 -> 0
        repeat $0 acquire 9
        acquire greatest
        acquire 4294967296
        release greatest
        records 5 -> 1
        records 7 -> 1
        records 9 -> $0
        records greatest -> 0
        records 4294967295 -> 0
        records 0 -> 0
        retire
        come
        records 5 -> 0
        records 9 -> 0
    ";
    goes_well(&rt, scene, &[MANY]);
}
