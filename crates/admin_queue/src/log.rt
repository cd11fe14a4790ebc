//! The log pages that there are (Base 2.0, section 5.16.1). A further one is a case more.
ghost use Rattle.std.specs.Prelude.{◌≡◌, length, nat_lt, replicate};
ghost use Rattle.admin_queue.specs.Controller.{controller_in};
ghost use Rattle.admin_queue.specs.Log.{kind_of, page_of_lid, read_whole};
ghost use Rattle.admin_queue.specs.Pages.{ana_groups, log_page_bytes, pages_in};
ghost use Rattle.nvt_fields.specs.Window.{window};

use crate::controller::AdminController;
use crate::pages::Pages;
use change_lists::empties;
use event_queue::EventKind;
use nvt_fields::Nqn;

// Log page identifiers.
const CHANGED_NAMESPACES: u8 = 0x04;

const ANA_GROUPS: u8 = 0x0C;

const DISCOVERY: u8 = 0x70;

/// A log page.
#[derive(Clone, Copy)]
pub enum LogPage {
    /// The discovery log page of the controller's host.
    Discovery,
    /// The Changed Namespace List of the controller.
    ChangedNamespaces,
    /// The Asymmetric Namespace Access log page of the controller; with `groups_only` (RGO) without
    /// the identifiers of namespaces.
    AnaGroups { groups_only: bool },
}

impl LogPage {
    /// The page that a log identifier names on a controller, which has no subsystem where it is a
    /// discovery controller; `lsp` is the log specific field.
    pub(crate) fn of_lid(subsystem: &Option<Nqn>, lid: u8, lsp: u8) -> Option<LogPage>
        ensures { result ≡ page_of_lid subsystem.now lid lsp }
    {
        match (subsystem, lid) {
            (None, DISCOVERY) => Some(LogPage::Discovery),
            (Some(_), CHANGED_NAMESPACES) => Some(LogPage::ChangedNamespaces),
            (Some(_), ANA_GROUPS) => Some(LogPage::AnaGroups {
                groups_only: lsp % 2 == 1,
            }),
            _ => None,
        }
    }

    /// The kind of events that tell a host to read it.
    pub(crate) fn kind(self) -> EventKind
        ensures { result ≡ kind_of self }
    {
        match self {
            LogPage::Discovery => EventKind::Discovery,
            LogPage::ChangedNamespaces => EventKind::Namespace,
            LogPage::AnaGroups { .. } => EventKind::Ana,
        }
    }

    /// Whether a read of so many bytes from an offset on is one of all of a Changed Namespace List.
    pub(crate) fn is_whole(self, offset: u64, len: u64) -> bool
        ensures { result ≡ read_whole self offset len }
    {
        match self {
            LogPage::ChangedNamespaces => empties(offset, len),
            LogPage::Discovery | LogPage::AnaGroups { .. } => false,
        }
    }

    /// Writes the page from an offset on, as much as there is room for.
    pub(crate) fn write(
        self,
        offset: u64,
        pages: &Pages<'_>,
        controller: &AdminController<'_>,
        out: &mut [u8],
    )
        ensures { let page = log_page_bytes self (pages_in pages.now) (controller_in controller.now) in
            out.new ≡ window page offset (length out.old) }
    {
        match self {
            LogPage::Discovery => pages
                .discovery
                .window(controller.host.as_bytes(), offset, out),
            LogPage::ChangedNamespaces => controller.notices.changed().page(offset, out),
            LogPage::AnaGroups { groups_only } => {
                write_groups(pages, controller, groups_only, offset, out);
            }
        }
    }

    /// In bytes.
    pub(crate) fn len(self, pages: &Pages<'_>, controller: &AdminController<'_>) -> u64
        ensures { let page = log_page_bytes self (pages_in pages.now) (controller_in controller.now) in
            result ≡ length page }
    {
        match self {
            LogPage::Discovery => pages.discovery.len(controller.host.as_bytes()),
            LogPage::ChangedNamespaces => controller.notices.changed().len(),
            LogPage::AnaGroups { groups_only } => groups_len(pages, controller, groups_only),
        }
    }

    /// Whether an offset lies behind the page's last byte.
    pub(crate) fn is_past_end(
        self,
        pages: &Pages<'_>,
        controller: &AdminController<'_>,
        offset: u64,
    ) -> bool
        ensures { let page = log_page_bytes self (pages_in pages.now) (controller_in controller.now) in
            result ≡ nat_lt (length page) offset }
    {
        match self {
            LogPage::Discovery => pages
                .discovery
                .is_past_end(controller.host.as_bytes(), offset),
            LogPage::ChangedNamespaces | LogPage::AnaGroups { .. } => {
                offset > self.len(pages, controller)
            }
        }
    }
}

fn write_groups(
    pages: &Pages<'_>,
    controller: &AdminController<'_>,
    groups_only: bool,
    offset: u64,
    out: &mut [u8],
)
    ensures { let c = controller_in controller.now in
        let page = ana_groups c.subsystem (pages_in pages.now) c groups_only in
        out.new ≡ window page offset (length out.old) }
{
    match controller.subsystem {
        Some(nqn) => {
            let (host, port) = (controller.host.as_bytes(), controller.port);
            let counts = controller.notices.counts();
            let subsystem = nqn.as_bytes();
            pages
                .ana
                .window(host, subsystem, port, counts, groups_only, offset, out);
        }
        None => write_zeros(out),
    }
}

fn groups_len(pages: &Pages<'_>, controller: &AdminController<'_>, groups_only: bool) -> u64
    ensures { let c = controller_in controller.now in
        result ≡ length (ana_groups c.subsystem (pages_in pages.now) c groups_only) }
{
    match controller.subsystem {
        Some(nqn) => {
            let (host, port) = (controller.host.as_bytes(), controller.port);
            pages.ana.len(host, nqn.as_bytes(), port, groups_only)
        }
        None => 0,
    }
}

/// Fills with zeros.
pub(crate) fn write_zeros(out: &mut [u8])
    ensures { out.new ≡ replicate (length out.old) 0 }
{
    out.fill(0);
}
