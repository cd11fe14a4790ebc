//! The views that log pages and lists are written from.

use ana_view::AnaView;
use change_lists::ActiveView;
use discovery_view::DiscoveryView;

/// A view for each log page and each list. A further one is a field more.
#[derive(Clone, Copy)]
pub struct Pages<'a> {
    pub discovery: &'a DiscoveryView,
    pub active: &'a ActiveView,
    pub ana: &'a AnaView,
}
