//! Laws of what lasts through a power cut. Each of these functions does nothing: its contract is the law, for whatever
//! happened.
ghost use Rattle.target_history.specs.Lasting.{AnsweredAsDone, GivesWhatWasBrought};
ghost use Rattle.target_history.specs.Lasting.{LastingWritesLast, LeftWasWritten};
ghost use Rattle.target_history.specs.Lasting.{ReadsFindWhatLasts, SizesStay};
ghost use Rattle.target_history.specs.Lasting.{SyncedUnitsStay, SyncsReachTheDisks};
ghost use Rattle.target_history.specs.Lasting.{UnsyncedMayBeLost, UntouchedUnitsStay};
ghost use Rattle.target_history.specs.Lasting.{WhatStandsMayBeLeft};

/// What was answered as lasting lasts: where a write of a unit was answered with success, its disk was synced by it or by
/// a later command, and no later command was to write the unit, then whatever a power cut leaves of the disks has there
/// exactly the bytes that it wrote.
#[tactic(auto, using(crate::proofs::Lasting::lasting_writes_last))]
pub fn lasting_writes_last()
    ensures { LastingWritesLast }
{}

/// What a sync found of a unit is left there, where no later command was to write the unit.
#[tactic(auto, using(crate::proofs::Lasting::synced_units_stay))]
pub fn synced_units_stay()
    ensures { SyncedUnitsStay }
{}

/// A unit that no command was to write is left as the target's disks opened with it.
#[tactic(auto, using(crate::proofs::Lasting::untouched_units_stay))]
pub fn untouched_units_stay()
    ensures { UntouchedUnitsStay }
{}

/// Each unit that is left is as the disks opened with it, or is what some command was to write there.
#[tactic(auto, using(crate::proofs::Lasting::left_was_written))]
pub fn left_was_written()
    ensures { LeftWasWritten }
{}

/// Disks of sizes that disks may have keep their sizes, since each operation that passes its checks is within them.
#[tactic(auto, using(crate::proofs::Sizes::sizes_stay_law))]
pub fn sizes_stay()
    ensures { SizesStay }
{}

/// What the disks hold now is one of what may be left of them. So something always may be left; and a program that is
/// killed while the system stays up finds it.
#[tactic(auto, using(crate::proofs::Lasting::what_stands_may_be_left))]
pub fn what_stands_may_be_left()
    ensures { WhatStandsMayBeLeft }
{}

/// Until a disk is synced its writes may be lost, unit by unit: what might have been left before them may be left still, and
/// so may all that they were to write.
#[tactic(auto, using(crate::proofs::Lasting::unsynced_may_be_lost))]
pub fn unsynced_may_be_lost()
    ensures { UnsyncedMayBeLost }
{}

/// A second target is made with what was left of the disks of a first. A Read there that is answered with success, by a
/// disk that finds what was written, returns at the place of each unit that lasted, and that nothing since was to write,
/// the bytes that were written to it before.
#[tactic(auto, using(crate::proofs::Lasting::reads_find_what_lasts))]
pub fn reads_find_what_lasts()
    ensures { ReadsFindWhatLasts }
{}

/// What a command is to write to a unit is the unit's 512 bytes of its data, or zeros. That is so where its disk fails, too.
#[tactic(auto, using(crate::proofs::Given::gives_what_was_brought))]
pub fn gives_what_was_brought()
    ensures { GivesWhatWasBrought }
{}

/// A Write, Write Zeroes or Flush is answered with success exactly where its disk did what was asked of it.
#[tactic(auto, using(crate::proofs::Syncing::answered_as_done))]
pub fn answered_as_done()
    ensures { AnsweredAsDone }
{}

/// A Flush of a disk, or a write of it with FUA, that is answered with success syncs it: then the disk has synced all that
/// it holds.
#[tactic(auto, using(crate::proofs::Syncing::syncs_reach_the_disks))]
pub fn syncs_reach_the_disks()
    ensures { SyncsReachTheDisks }
{}
