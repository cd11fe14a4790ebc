//! Laws of histories, in the words of the subject. Each of these functions does nothing: its
//! contract is the law, for whatever events there are.
ghost use Rattle.target_history.specs.Laws.{ControllersLiveByTheirAdmins, DeletedPortsEnd};
ghost use Rattle.target_history.specs.Laws.{EditsEndControllers, EndedAreSentNothing};
ghost use Rattle.target_history.specs.Laws.{HeadsCountResponses, LiveArePermitted};
ghost use Rattle.target_history.specs.Laws.{NothingExpiresWithoutTicks, PagesChangeByEdits};
ghost use Rattle.target_history.specs.Laws.{PermittedOutliveEdits, QueueIdsAreOfConnections};
ghost use Rattle.target_history.specs.Laws.{QueuesAreOfOneConnection, QueuesAreOnTheirPort};
ghost use Rattle.target_history.specs.Laws.{ResetsEndTheirQueuesAlone, ResponsesAnswerCapsules};
ghost use Rattle.target_history.specs.Laws.{SentByOwnAlone, TransfersAreCarriedOn};
ghost use Rattle.target_history.specs.Completed.{CompletedReadsFindWhatWasWritten};

/// A connection that is ended is sent nothing more, until it is opened again.
#[tactic(auto, using(crate::proofs::Histories::ended_are_sent_nothing))]
pub fn ended_are_sent_nothing()
    ensures { EndedAreSentNothing }
{}

/// An edit that deletes the port of a connection ends it.
#[tactic(auto, using(crate::proofs::Histories::deleted_ports_end))]
pub fn deleted_ports_end()
    ensures { DeletedPortsEnd }
{}

/// A connection is sent no more responses than it sent capsules, less those whose commands wait for their
/// data or for something to tell.
#[tactic(auto, using(crate::proofs::Histories::responses_answer_capsules))]
pub fn responses_answer_capsules()
    ensures { ResponsesAnswerCapsules }
{}

/// What stands under a tag of a connection is the Write or Compare that was sent an R2T under it last, with
/// the data of each H2CData that named it since: looking back says so, and so does carrying the transfers
/// on, event by event, as each decision says.
#[tactic(auto, using(crate::proofs::Transfers::transfers_are_carried_on))]
pub fn transfers_are_carried_on()
    ensures { TransfersAreCarriedOn }
{}

/// Log pages and lists change by edits alone, but for the counts of a controller and its changed namespaces.
#[tactic(auto, using(crate::proofs::Histories::pages_change_by_edits))]
pub fn pages_change_by_edits()
    ensures { PagesChangeByEdits }
{}

/// Each response carries the number of responses since the Connect, round the queue's size.
#[tactic(auto, using(crate::proofs::Counting::heads_count_responses))]
pub fn heads_count_responses()
    ensures { HeadsCountResponses }
{}

/// A connection to which the same happened, in worlds that showed it the same of its own
/// controller, and of which edits changed the same, is sent the same, whatever happens to other
/// connections and controllers.
#[tactic(auto, using(crate::proofs::Alike::sent_by_own_alone))]
pub fn sent_by_own_alone()
    ensures { SentByOwnAlone }
{}

/// A reset ends the I/O queues of its controller, no other connection, and no controller.
#[tactic(auto, using(crate::proofs::Endings::resets_end_their_queues_alone))]
pub fn resets_end_their_queues_alone()
    ensures { ResetsEndTheirQueuesAlone }
{}

/// A controller whose host may still use its subsystem outlives each edit that does not delete its
/// port, and so do its connections, on which its host is told of the edit.
#[tactic(auto, using(crate::proofs::Outliving::permitted_outlive_edits))]
pub fn permitted_outlive_edits()
    ensures { PermittedOutliveEdits }
{}

/// An edit that deletes the port of a controller ends it, and so does any edit after which its host
/// may not use its subsystem.
#[tactic(auto, using(crate::proofs::Endings::edits_end_controllers))]
pub fn edits_end_controllers()
    ensures { EditsEndControllers }
{}

/// The host of each controller that lives may use its subsystem on its port.
#[tactic(auto, using(crate::proofs::Permissions::live_are_permitted))]
pub fn live_are_permitted()
    ensures { LiveArePermitted }
{}

/// Where the clock is never set, no controller ends by its Keep Alive Timer.
#[tactic(auto, using(crate::proofs::Endings::nothing_expires_without_ticks))]
pub fn nothing_expires_without_ticks()
    ensures { NothingExpiresWithoutTicks }
{}

/// No two connections are the admin queue of one controller, nor its I/O queues of one identifier.
#[tactic(auto, using(crate::proofs::Holding::queues_are_of_one_connection))]
pub fn queues_are_of_one_connection()
    ensures { QueuesAreOfOneConnection }
{}

/// A controller lives exactly as long as a connection is its admin queue, where each connection is
/// opened under a number that is not known.
#[tactic(auto, using(crate::proofs::Serving::controllers_live_by_their_admins))]
pub fn controllers_live_by_their_admins()
    ensures { ControllersLiveByTheirAdmins }
{}

/// The connections of a controller are on its port, and it lives.
#[tactic(auto, using(crate::proofs::Serving::queues_are_on_their_port))]
pub fn queues_are_on_their_port()
    ensures { QueuesAreOnTheirPort }
{}

/// A controller has an I/O queue of an identifier exactly as long as it lives and a connection is
/// that queue, where each connection is opened under a number that is not known.
#[tactic(auto, using(crate::proofs::Serving::queue_ids_are_of_connections))]
pub fn queue_ids_are_of_connections()
    ensures { QueueIdsAreOfConnections }
{}

/// Where a disk finds what was written, a Read that is answered with success returns the units of its extent as the disk
/// opened with them, overwritten by the completed writes in event order; and a Compare is answered with success only
/// where these are its data.
#[tactic(auto, using(crate::proofs::Completing::completed_reads_find_what_was_written))]
pub fn completed_reads_find_what_was_written()
    ensures { CompletedReadsFindWhatWasWritten }
{}
