//! Admin commands, by their opcode.
ghost use Rattle.std.specs.Prelude.{◌≡◌};
ghost use Rattle.admin_queue.specs.Commands.{admin};
ghost use Rattle.admin_queue.specs.Controller.{controller_in};
ghost use Rattle.admin_queue.specs.Pages.{pages_in};

use crate::controller::AdminController;
use crate::outcome::{Effect, Outcome, done};
use crate::pages::Pages;
use crate::{event_request, features, identify, log_page};
use nvt_config::Config;
use nvt_fields::Status;
use pdu_codec::Sqe;

const GET_LOG_PAGE: u8 = 0x02;

const IDENTIFY: u8 = 0x06;

const ABORT: u8 = 0x08;

const SET_FEATURES: u8 = 0x09;

const GET_FEATURES: u8 = 0x0A;

const EVENT_REQUEST: u8 = 0x0C;

const KEEP_ALIVE: u8 = 0x18;

/// The result of an Abort that aborts nothing.
const NOT_ABORTED: u64 = 1;

/// What a command of this controller, which has to be ready, comes to (Base 2.0, section 5).
pub fn admin(
    pages: &Pages<'_>,
    config: &Config,
    controller: &AdminController<'_>,
    sqe: &Sqe<'_>,
) -> Outcome
    ensures { result ≡ admin (pages_in pages.now) config.now (controller_in controller.now)
        sqe.now.entry.now }
{
    match sqe.opcode() {
        GET_LOG_PAGE => log_page::command(pages, controller, sqe),
        IDENTIFY => identify::command(config, controller, sqe),
        ABORT => done(NOT_ABORTED, Effect::Nothing),
        SET_FEATURES => features::set(controller, sqe),
        GET_FEATURES => features::get(controller, sqe),
        EVENT_REQUEST => event_request::command(controller, sqe),
        KEEP_ALIVE => done(0, Effect::KeepAlive),
        _ => Err(Status::INVALID_OPCODE),
    }
}
