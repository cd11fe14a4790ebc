//! Random edits of each command, with values of any width that keeps their lines within 1,024 bytes.
use config_text::EditCommand;
use nvt_config::{Access, AnaState, Edit, Family, Visibility};
use nvt_fields::NqnFault;
use rand_core::utils::NextWord;
use rand_pcg::Pcg32;
use std::alloc::Global;
use testkit_edits::{Blocks, Line, edit};
use uuid::Uuid;

const NAME_MIN: usize = 5;

const NAME_MAX: usize = 223;

// The longest that leave room for the longest of the other words.
const SERIAL_MAX: usize = 782;

const ADDRESS_MAX: usize = 968;

fn pick<T: Copy>(random: &mut Pcg32, first: T, others: &[T]) -> T {
    let at = random.next_word() as usize % (others.len().min(15) + 1);
    others.get(at).copied().unwrap_or(first)
}

// Some bytes from 21h to 7Eh.
#[derive(Clone, Copy)]
struct Letters {
    bytes: [u8; ADDRESS_MAX],
    len: usize,
}

impl Letters {
    // At random, with a length from `least` to `most`, often one of these.
    fn of(random: &mut Pcg32, least: usize, most: usize) -> Letters {
        let mut bytes = [0; ADDRESS_MAX];
        for byte in bytes.iter_mut() {
            *byte = 0x21 + (random.next_word() % 94) as u8;
        }
        let any = random.next_word() as usize % ADDRESS_MAX;
        let len = pick(random, any, &[least, most, any]).min(most).max(least);
        Letters { bytes, len }
    }

    fn name(random: &mut Pcg32) -> Letters {
        let mut letters = Letters::of(random, NAME_MIN, NAME_MAX);
        letters.bytes[..4].copy_from_slice(b"nqn.");
        letters
    }

    fn as_bytes(&self) -> &[u8] {
        self.bytes.get(..self.len).unwrap_or(&[])
    }
}

// A number, often a limit of some edit or the number beside it.
fn number(random: &mut Pcg32) -> u64 {
    let limits = [
        0u64,
        1,
        32,
        33,
        255,
        512,
        4_096,
        4_097,
        65_535,
        65_536,
        u64::MAX,
    ];
    let word = u64::from(random.next_word());
    let any = (word << 32) ^ u64::from(random.next_word());
    pick(random, any, &limits)
}

fn access(random: &mut Pcg32) -> Access {
    pick(random, Access::Open, &[Access::Closed])
}

fn visibility(random: &mut Pcg32) -> Visibility {
    pick(random, Visibility::All, &[Visibility::Named])
}

fn family(random: &mut Pcg32) -> Family {
    pick(random, Family::Ipv4, &[Family::Ipv6])
}

fn state(random: &mut Pcg32) -> AnaState {
    let others = [
        AnaState::NonOptimized,
        AnaState::Inaccessible,
        AnaState::PersistentLoss,
        AnaState::Change,
    ];
    pick(random, AnaState::Optimized, &others)
}

fn uuid(random: &mut Pcg32) -> Uuid {
    let mut bytes = [0u8; 16];
    for byte in bytes.iter_mut() {
        *byte = (random.next_word() % 256) as u8;
    }
    Uuid::from_bytes(pick(random, bytes, &[bytes, bytes, [0; 16], [255; 16]]))
}

fn blocks(random: &mut Pcg32) -> Blocks {
    Blocks {
        nsid: number(random),
        disk: number(random),
        blocks: number(random),
        block_size: number(random),
        uuid: 0,
        group: number(random),
    }
}

// The names and the texts of an edit.
#[derive(Drop)]
struct Texts {
    name: Letters,
    host: Letters,
    serial: Letters,
    address: Letters,
}

impl Texts {
    fn of(random: &mut Pcg32) -> Texts {
        Texts {
            name: Letters::name(random),
            host: Letters::name(random),
            serial: Letters::of(random, 1, SERIAL_MAX),
            address: Letters::of(random, 1, ADDRESS_MAX),
        }
    }

    // A line of this command, with other values at random.
    fn line<'a>(&'a self, random: &mut Pcg32, command: EditCommand) -> Line<'a> {
        let name = self.name.as_bytes();
        let host = self.host.as_bytes();
        let serial = self.serial.as_bytes();
        let address = self.address.as_bytes();
        match command {
            EditCommand::SubsystemAdd => Line::SubsystemAdd(name, serial, access(random)),
            EditCommand::SubsystemSet => Line::SubsystemSet(name, access(random)),
            EditCommand::SubsystemDel => Line::SubsystemDel(name),
            EditCommand::NamespaceAdd => Line::NamespaceAdd(name, blocks(random)),
            EditCommand::NamespaceSize => Line::NamespaceSize(name, number(random), number(random)),
            EditCommand::NamespaceGroup => Line::NamespaceGroup(
                name,
                number(random),
                number(random),
            ),
            EditCommand::NamespaceDel => Line::NamespaceDel(name, number(random)),
            EditCommand::NamespaceView => {
                Line::NamespaceView(name, number(random), visibility(random))
            }
            EditCommand::NamespaceShow => Line::NamespaceShow(name, number(random), host),
            EditCommand::NamespaceHide => Line::NamespaceHide(name, number(random), host),
            EditCommand::PortAdd => Line::PortAdd(number(random), address, number(random)),
            EditCommand::PortSet => {
                Line::PortSet(number(random), family(random), address, number(random))
            }
            EditCommand::PortDel => Line::PortDel(number(random)),
            EditCommand::LinkAdd => Line::LinkAdd(number(random), name),
            EditCommand::LinkDel => Line::LinkDel(number(random), name),
            EditCommand::HostAdd => Line::HostAdd(host),
            EditCommand::HostDel => Line::HostDel(host),
            EditCommand::AllowAdd => Line::AllowAdd(name, host),
            EditCommand::AllowDel => Line::AllowDel(name, host),
            EditCommand::AnaSet => Line::AnaSet(
                number(random),
                name,
                number(random),
                state(random),
            ),
            EditCommand::ReferralAdd => Line::ReferralAdd(number(random), address, number(random)),
            EditCommand::ReferralSet => {
                Line::ReferralSet(number(random), family(random), address, number(random))
            }
            EditCommand::ReferralDel => Line::ReferralDel(number(random)),
        }
    }
}

/// An edit whose line begins with this command.
pub fn drawn(alloc: Global, random: &mut Pcg32, command: EditCommand) -> Result<Edit, NqnFault> {
    let texts = Texts::of(random);
    let mut edit = edit(alloc, texts.line(random, command))?;
    widen(random, &mut edit);
    Ok(edit)
}

// The values of an edit that its line does not choose: any UUID, and either family.
fn widen(random: &mut Pcg32, edit: &mut Edit) {
    if let Edit::NamespaceAdd(new) = edit {
        new.uuid = uuid(random);
    }
    if let Edit::PortAdd(endpoint) | Edit::ReferralAdd(endpoint) = edit {
        endpoint.family = family(random);
    }
}
