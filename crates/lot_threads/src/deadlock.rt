//! This module has records of the resources that a thread holds, in the thread's own data. There is
//! no detector of deadlocks here.

ghost use Rattle.std.specs.Prelude.{◌≡◌, OnErr, OnOk};
ghost use Rattle.lot_machine.specs.Records.{one_less, one_more, times_recorded};
ghost use Rattle.lot_threads.specs.Members.{IsDataOf, IsSame, Makes, member_of};

use crate::parker::ThreadParkerT;
use crate::parking_lot::{ParkingLot, ThreadData};
use crate::told::add_recording;
use lot_base::token::NoMemory;
use lot_machine::step::{Answer, Step};

/// Records that the thread holds the resource of this key.
///
/// Call it when the thread has the resource. If the key is recorded already, it counts once more.
/// The contract requires data of a thread of this lot.
///
/// The call may allocate, for the records alone. It takes no lock, and no other call waits for it.
///
/// # Errors
///
/// Returns `NoMemory` if there is not enough memory. The records have not changed then, and the
/// history says so.
pub fn acquire_resource<P: ThreadParkerT>(
    lot: &ParkingLot<P>,
    thread_data: &mut ThreadData,
    key: usize,
) -> Result<(), NoMemory>
    requires own { IsDataOf lot.now thread_data.old }
    ensures same { IsSame (member_of lot.now thread_data.old) (member_of lot.now thread_data.new) }
    ensures ok { OnOk result (times_recorded thread_data.new.records
        ≡ one_more (times_recorded thread_data.old.records) key) }
    ensures err { OnErr result (thread_data.new.records ≡ thread_data.old.records) }
    ensures recorded { OnOk result (Makes (member_of lot.now thread_data.old)
        (Step.Acquire thread_data.old.number key) Answer.Recorded
        (member_of lot.now thread_data.new)) }
    ensures refused { OnErr result (Makes (member_of lot.now thread_data.old)
        (Step.Acquire thread_data.old.number key) Answer.NoMemory
        (member_of lot.now thread_data.new)) }
{
    let number = thread_data.number;
    let acquired = thread_data.keys.acquire(key);
    let answer = if acquired.is_ok() {
        Answer::Recorded
    } else {
        Answer::NoMemory
    };
    add_recording(
        lot.shared().history(),
        &mut thread_data.witness,
        &mut thread_data.thread,
        &mut thread_data.records,
        Step::Acquire {
            thread: number,
            key,
        },
        answer,
        number,
        &thread_data.keys,
    );
    acquired
}

/// Takes one from the count of this key in the thread's records.
///
/// If the key is not recorded, no count changes. The contract requires data of a thread of this
/// lot.
///
/// The call searches the records from the last one. It allocates nothing and takes no lock.
pub fn release_resource<P: ThreadParkerT>(
    lot: &ParkingLot<P>,
    thread_data: &mut ThreadData,
    key: usize,
)
    requires own { IsDataOf lot.now thread_data.old }
    ensures same { IsSame (member_of lot.now thread_data.old) (member_of lot.now thread_data.new) }
    ensures records { times_recorded thread_data.new.records
        ≡ one_less (times_recorded thread_data.old.records) key }
    ensures released { Makes (member_of lot.now thread_data.old)
        (Step.Release thread_data.old.number key) Answer.Released
        (member_of lot.now thread_data.new) }
{
    let number = thread_data.number;
    thread_data.keys.release(key);
    add_recording(
        lot.shared().history(),
        &mut thread_data.witness,
        &mut thread_data.thread,
        &mut thread_data.records,
        Step::Release {
            thread: number,
            key,
        },
        Answer::Released,
        number,
        &thread_data.keys,
    );
}
