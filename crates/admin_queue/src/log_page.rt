//! Get Log Page (Base 2.0, section 5.16).
ghost use Rattle.std.specs.Prelude.{◌≡◌};
ghost use Rattle.admin_queue.specs.Controller.{controller_in};
ghost use Rattle.admin_queue.specs.LogPage.{get_log_page, read_page, read_update};
ghost use Rattle.admin_queue.specs.Pages.{log_page_bytes, pages_in};

use crate::NoticeUpdate;
use crate::controller::AdminController;
use crate::log::LogPage;
use crate::outcome::{Effect, Outcome, returned};
use crate::pages::Pages;
use crate::payload::{LogPagePart, Payload};
use nvt_fields::Status;
use pdu_codec::{GetLogPage, Sqe};

/// The most bytes of one read (MDTS; Base 2.0, section 5.17.2.1).
const READ_MAX: u64 = 131_072;

pub(crate) fn command(pages: &Pages<'_>, controller: &AdminController<'_>, sqe: &Sqe<'_>) -> Outcome
    ensures { result ≡ get_log_page (pages_in pages.now) (controller_in controller.now)
        sqe.now.entry.now }
{
    let request = GetLogPage::read(sqe);
    match LogPage::of_lid(controller.subsystem, request.lid, request.lsp) {
        Some(page) => read_page(page, &request, pages, controller, sqe),
        None => Err(Status::INVALID_LOG_PAGE),
    }
}

fn read_page(
    page: LogPage,
    request: &GetLogPage,
    pages: &Pages<'_>,
    controller: &AdminController<'_>,
    sqe: &Sqe<'_>,
) -> Outcome
    ensures { let bytes = log_page_bytes page (pages_in pages.now) (controller_in controller.now) in
        result ≡ read_page page bytes request.now sqe.now.entry.now }
{
    let dwords = u64::from(request.numd) + 1;
    if 4 * dwords > READ_MAX
        || request.offset % 4 != 0
        || page.is_past_end(pages, controller, request.offset)
    {
        return Err(Status::INVALID_FIELD);
    }
    let part = LogPagePart {
        page,
        offset: request.offset,
        dwords: dwords as u16,
    };
    let update = read_update(page, request);
    returned(Payload::LogPage(part), Effect::Notices(update), sqe)
}

// What a read of the page makes of what its host is to be told.
fn read_update(page: LogPage, request: &GetLogPage) -> NoticeUpdate
    ensures { result ≡ read_update page request.now }
{
    let len = 4 * (u64::from(request.numd) + 1);
    NoticeUpdate::Read {
        kind: page.kind(),
        retain: request.rae,
        whole: page.is_whole(request.offset, len),
    }
}
