//! Get Features and Set Features (Base 2.0, sections 5.15 and 5.27).
ghost use Rattle.std.specs.Prelude.{◌≡◌};
ghost use Rattle.admin_queue.specs.Controller.{controller_in};
ghost use Rattle.admin_queue.specs.Features.{are_queues, configured, get_features, get_queues, set_features, set_queues};

use crate::NoticeUpdate;
use crate::controller::AdminController;
use crate::outcome::{Effect, Outcome, done};
use nvt_fields::Status;
use pdu_codec::{Feature, Sqe};

const NUMBER_OF_QUEUES: u8 = 0x07;

const EVENT_CONFIGURATION: u8 = 0x0B;

const KEEP_ALIVE_TIMER: u8 = 0x0F;

/// 8 I/O submission queues and as many completion queues, both 0's based.
const QUEUES: u64 = 0x0007_0007;

/// No controller keeps a value through its end, so none is to be saved.
pub(crate) fn set(controller: &AdminController<'_>, sqe: &Sqe<'_>) -> Outcome
    ensures { result ≡ set_features (controller_in controller.now) sqe.now.entry.now }
{
    let feature = Feature::read(sqe);
    if feature.save {
        return Err(Status::FEATURE_NOT_SAVEABLE);
    }
    match feature.fid {
        NUMBER_OF_QUEUES => set_queues(controller, feature.value),
        EVENT_CONFIGURATION => done(0, configured(feature.value)),
        KEEP_ALIVE_TIMER => done(0, Effect::KeepAliveTimeout(feature.value)),
        _ => Err(Status::INVALID_FIELD),
    }
}

pub(crate) fn get(controller: &AdminController<'_>, sqe: &Sqe<'_>) -> Outcome
    ensures { result ≡ get_features (controller_in controller.now) sqe.now.entry.now }
{
    match Feature::read(sqe).fid {
        NUMBER_OF_QUEUES => get_queues(controller),
        EVENT_CONFIGURATION => {
            let mask = controller.notices.events().mask();
            done(u64::from(mask), Effect::Nothing)
        }
        KEEP_ALIVE_TIMER => done(u64::from(controller.kato), Effect::Nothing),
        _ => Err(Status::INVALID_FIELD),
    }
}

fn configured(mask: u32) -> Effect
    ensures { result ≡ configured mask }
{
    Effect::Notices(NoticeUpdate::Configured { mask })
}

// Whatever number is asked for, the answer is how many there are.
fn set_queues(controller: &AdminController<'_>, value: u32) -> Outcome
    ensures { result ≡ set_queues (controller_in controller.now) value }
{
    if are_queues(value) {
        get_queues(controller)
    } else {
        Err(Status::INVALID_FIELD)
    }
}

fn get_queues(controller: &AdminController<'_>) -> Outcome
    ensures { result ≡ get_queues (controller_in controller.now) }
{
    match controller.subsystem {
        Some(_) => done(QUEUES, Effect::Nothing),
        None => Err(Status::INVALID_FIELD),
    }
}

// Whether each half is a number of queues, 0's based: 65,535 at most may be asked for.
fn are_queues(value: u32) -> bool
    ensures { result ≡ are_queues value }
{
    value % 0x1_0000 != 0xFFFF && value / 0x1_0000 != 0xFFFF
}
