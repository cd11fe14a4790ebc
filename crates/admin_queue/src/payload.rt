//! The data that a command returns, by where its bytes come from. They are written straight into the
//! room that a reply has for them.
ghost use Rattle.std.specs.Prelude.{◌≡◌, ◌≤◌, ◌<◌, ◌+◌, ◌^◌, length, replicate, slice_range};
ghost use Rattle.std.specs.Option.{option_copied};
ghost use Rattle.admin_queue.specs.Controller.{controller_in};
ghost use Rattle.admin_queue.specs.Pages.{log_page_bytes, pages_in};
ghost use Rattle.admin_queue.specs.Payload.{IsPart, active_in, identity_of, namespace_in, payload_bytes, payload_len, serial_in, structure_bytes};
ghost use Rattle.identify_data.specs.Controller.{controller_data};
ghost use Rattle.nvt_fields.specs.Window.{window};

use crate::controller::AdminController;
use crate::log::{LogPage, write_zeros};
use crate::pages::Pages;
use config_lists::Namespace;
use identify_data::ControllerIdentity;
use nvt_config::Config;
use nvt_fields::Nqn;

const IDENTIFY_LEN: usize = 4_096;

/// The data of a reply.
#[derive(Clone, Copy)]
pub enum Payload {
    /// A part of a log page.
    LogPage(LogPagePart),
    /// What an Identify asks for, of 4,096 bytes.
    Identify(Structure),
}

impl Payload {
    /// In bytes.
    pub fn len(&self) -> usize
        ensures value { result ≡ payload_len self.now }
        ensures bound { result < 2 ^ 18 }
    {
        match self {
            Payload::LogPage(part) => 4 * usize::from(part.dwords),
            Payload::Identify(_) => IDENTIFY_LEN,
        }
    }

    /// Writes the bytes into room for as many, whatever stood there.
    pub fn write(
        &self,
        pages: &Pages<'_>,
        config: &Config,
        controller: &AdminController<'_>,
        out: &mut [u8],
    )
        requires { length out.old ≡ payload_len self.now }
        ensures { out.new ≡ payload_bytes self.now (pages_in pages.now) config.now
            (controller_in controller.now) }
    {
        self.write_part(0, pages, config, controller, out);
    }

    /// Writes the bytes from an offset on into room for a part of them, whatever stood there. What an
    /// Identify asks for is written as a whole.
    pub fn write_part(
        &self,
        offset: u32,
        pages: &Pages<'_>,
        config: &Config,
        controller: &AdminController<'_>,
        out: &mut [u8],
    )
        requires { IsPart self.now offset (length out.old) }
        ensures part { let bytes = payload_bytes self.now (pages_in pages.now) config.now
            (controller_in controller.now) in
            out.new ≡ slice_range bytes offset (offset + length out.old) }
        ensures len { let bytes = payload_bytes self.now (pages_in pages.now) config.now
            (controller_in controller.now) in
            length bytes ≡ payload_len self.now }
    {
        match self {
            Payload::LogPage(part) => part.write(offset, pages, controller, out),
            Payload::Identify(structure) => structure.write(pages, config, controller, out),
        }
    }
}

/// A part of a log page. Past the page's end it is zeros.
#[derive(Clone, Copy)]
pub struct LogPagePart {
    pub page: LogPage,
    /// The offset of its first byte.
    pub offset: u64,
    /// The number of dwords, of 4 bytes.
    pub dwords: u16,
}

impl LogPagePart {
    // From an offset of the part on, as much as there is room for.
    fn write(
        &self,
        offset: u32,
        pages: &Pages<'_>,
        controller: &AdminController<'_>,
        out: &mut [u8],
    )
        ensures { let page = log_page_bytes self.now.page (pages_in pages.now)
            (controller_in controller.now) in
            out.new ≡ window page (self.now.offset + offset) (length out.old) }
    {
        match self.offset.checked_add(u64::from(offset)) {
            Some(at) => self.page.write(at, pages, controller, out),
            None => {
                // prover: no page has as many as 2^64 bytes
                self.page.len(pages, controller);
                write_zeros(out);
            }
        }
    }
}

/// What an Identify returns (Base 2.0, section 5.17.2).
#[derive(Clone, Copy)]
pub enum Structure {
    /// The controller.
    Controller,
    /// The namespace of this identifier, zeros where it is not active.
    Namespace(u32),
    /// The identifiers of active namespaces above this one.
    ActiveList(u32),
    /// The descriptors of the namespace of this identifier.
    Descriptors(u32),
}

impl Structure {
    fn write(
        &self,
        pages: &Pages<'_>,
        config: &Config,
        controller: &AdminController<'_>,
        out: &mut [u8],
    )
        requires { length out.old ≡ 4096 }
        ensures { out.new ≡ structure_bytes self.now (pages_in pages.now) config.now
            (controller_in controller.now) }
    {
        match *self {
            Structure::Controller => write_controller(config, controller, out),
            Structure::Namespace(nsid) => {
                identify_data::namespace(namespace_of(config, controller, nsid), out)
            }
            Structure::ActiveList(above) => write_active(pages, controller, above, out),
            Structure::Descriptors(nsid) => match namespace_of(config, controller, nsid) {
                Some(namespace) => identify_data::descriptors(namespace, out),
                None => write_zeros(out),
            },
        }
    }
}

fn write_controller(config: &Config, controller: &AdminController<'_>, out: &mut [u8])
    requires { length out.old ≡ 4096 }
    ensures { out.new ≡ controller_data (identity_of config.now (controller_in controller.now)) }
{
    let cntlid = controller.cntlid;
    let identity = match controller.subsystem {
        Some(nqn) => ControllerIdentity::Io {
            cntlid,
            serial: serial_of(config, nqn.as_bytes()),
            subnqn: name_of(nqn),
        },
        None => ControllerIdentity::Discovery { cntlid },
    };
    identify_data::controller(&identity, out);
}

// A name's bytes, of which there are at most 223.
fn name_of(nqn: &Nqn) -> &[u8]
    ensures value { result.now ≡ nqn.now }
    ensures bound { length result.now ≤ 256 }
{
    &nqn.as_bytes()[..nqn.len()]
}

// The serial number of a subsystem; no byte where it is not there.
fn serial_of<'a>(config: &'a Config, nqn: &[u8]) -> &'a [u8]
    ensures value { result.now ≡ serial_in config.now nqn.now }
    ensures bound { length result.now ≤ 20 }
{
    match config.subsystem(nqn) {
        Some(subsystem) => subsystem.serial.as_bytes(),
        None => &[],
    }
}

// The namespace of that identifier in the controller's subsystem, where its host sees it.
fn namespace_of<'a>(
    config: &'a Config,
    controller: &AdminController<'_>,
    nsid: u32,
) -> Option<&'a Namespace>
    ensures { option_copied result
        ≡ namespace_in (controller_in controller.now) config.now nsid }
{
    match controller.subsystem {
        Some(nqn) => config.namespace(controller.host.as_bytes(), nqn.as_bytes(), nsid),
        None => None,
    }
}

fn write_active(pages: &Pages<'_>, controller: &AdminController<'_>, above: u32, out: &mut [u8])
    requires { length out.old ≡ 4096 }
    ensures { out.new
        ≡ active_in (controller_in controller.now) (pages_in pages.now) above }
{
    match controller.subsystem {
        Some(nqn) => {
            let host = controller.host.as_bytes();
            pages.active.window(host, nqn.as_bytes(), above, out);
        }
        None => write_zeros(out),
    }
}
