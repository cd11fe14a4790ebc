//! The view beside the plain count, on random lists of edits.
use super::followed::{Followed, UNITS, follow, page, start};
use super::plain;
use config_text::{COMMANDS, EditCommand};
use nvt_config::{Access, AnaState, Edit, Family, Visibility};
use rand_core::utils::NextWord;
use rand_pcg::Pcg32;
use std::alloc::{AllocError, Global};
use testkit_edits::{Blocks, Line, edit};
use testkit_tables::{Outcome, Placed, check, check_bytes, check_number, check_rows, pass};

const SCRIPTS: u64 = 300;

const EDITS: u32 = 40;

const SEED: u64 = 0x6469_7363;

const NAMES: &[&[u8]] = &[b"nqn.b", b"nqn.a", b"nqn.aa", b"nqn.aa"];

// One of these, or the first.
fn pick<T: Copy>(random: &mut Pcg32, first: T, others: &[T]) -> T {
    let at = random.next_word() as usize % (others.len().min(8) + 1);
    others.get(at).copied().unwrap_or(first)
}

fn name(random: &mut Pcg32) -> &'static [u8] {
    pick(random, b"nqn.aa".as_slice(), NAMES)
}

fn host(random: &mut Pcg32) -> &'static [u8] {
    pick(random, b"nqn.h".as_slice(), &[b"nqn.late".as_slice()])
}

fn port(random: &mut Pcg32) -> u64 {
    pick(random, 7u64, &[300, 2, 7, 7])
}

fn access(random: &mut Pcg32) -> Access {
    pick(random, Access::Open, &[Access::Closed, Access::Closed])
}

fn address(random: &mut Pcg32) -> &'static [u8] {
    pick(random, b"127.0.0.1".as_slice(), &[b"::1".as_slice()])
}

fn family(random: &mut Pcg32) -> Family {
    pick(random, Family::Ipv4, &[Family::Ipv6])
}

fn service(random: &mut Pcg32) -> u64 {
    pick(random, 4420u64, &[4421, 8009, 1])
}

fn nsid(random: &mut Pcg32) -> u64 {
    pick(random, 1u64, &[4_096, 1, 1])
}

fn state(random: &mut Pcg32) -> AnaState {
    pick(
        random,
        AnaState::Optimized,
        &[AnaState::Inaccessible, AnaState::Change],
    )
}

fn blocks(random: &mut Pcg32) -> Blocks {
    Blocks {
        nsid: nsid(random),
        disk: pick(random, 0u64, &[1]),
        blocks: pick(random, 1u64, &[2_048]),
        block_size: 512,
        uuid: pick(random, 1u8, &[2, 3]),
        group: pick(random, 1u64, &[32]),
    }
}

fn visibility(random: &mut Pcg32) -> Visibility {
    pick(random, Visibility::Named, &[Visibility::All])
}

// The commands of which others need the items, and the rarest that is accepted: they come more often.
const FREQUENT: &[EditCommand] = &[
    EditCommand::SubsystemAdd,
    EditCommand::PortAdd,
    EditCommand::LinkAdd,
    EditCommand::LinkAdd,
    EditCommand::HostAdd,
    EditCommand::NamespaceAdd,
    EditCommand::AllowAdd,
    EditCommand::AllowDel,
];

pub fn command(random: &mut Pcg32) -> EditCommand {
    let commands = pick(random, COMMANDS, &[FREQUENT]);
    let at = random.next_word() as usize % commands.len().max(1);
    commands.get(at).copied().unwrap_or(EditCommand::HostAdd)
}

/// A line of this command, whose edit is often refused.
pub fn line(command: EditCommand, random: &mut Pcg32) -> Line<'static> {
    match command {
        EditCommand::SubsystemAdd => Line::SubsystemAdd(name(random), b"SN", access(random)),
        EditCommand::SubsystemSet => Line::SubsystemSet(name(random), access(random)),
        EditCommand::SubsystemDel => Line::SubsystemDel(name(random)),
        EditCommand::NamespaceAdd => Line::NamespaceAdd(name(random), blocks(random)),
        EditCommand::NamespaceSize => Line::NamespaceSize(name(random), nsid(random), 2),
        EditCommand::NamespaceGroup => Line::NamespaceGroup(name(random), nsid(random), 2),
        EditCommand::NamespaceDel => Line::NamespaceDel(name(random), nsid(random)),
        EditCommand::NamespaceView => {
            Line::NamespaceView(name(random), nsid(random), visibility(random))
        }
        EditCommand::NamespaceShow => Line::NamespaceShow(name(random), nsid(random), host(random)),
        EditCommand::NamespaceHide => Line::NamespaceHide(name(random), nsid(random), host(random)),
        EditCommand::PortAdd => Line::PortAdd(port(random), address(random), service(random)),
        EditCommand::PortSet => {
            Line::PortSet(
                port(random),
                family(random),
                address(random),
                service(random),
            )
        }
        EditCommand::PortDel => Line::PortDel(port(random)),
        EditCommand::LinkAdd => Line::LinkAdd(port(random), name(random)),
        EditCommand::LinkDel => Line::LinkDel(port(random), name(random)),
        EditCommand::HostAdd => Line::HostAdd(host(random)),
        EditCommand::HostDel => Line::HostDel(host(random)),
        EditCommand::AllowAdd => Line::AllowAdd(name(random), host(random)),
        EditCommand::AllowDel => Line::AllowDel(name(random), host(random)),
        EditCommand::AnaSet => Line::AnaSet(port(random), name(random), 1, state(random)),
        EditCommand::ReferralAdd => Line::ReferralAdd(
            port(random),
            address(random),
            service(random),
        ),
        EditCommand::ReferralSet => {
            Line::ReferralSet(
                port(random),
                family(random),
                address(random),
                service(random),
            )
        }
        EditCommand::ReferralDel => Line::ReferralDel(port(random)),
    }
}

const COUNT: usize = COMMANDS.len();

// How many records the hosts were shown, how many changes were counted, and how many edits of each
// command were accepted.
#[derive(Clone, Copy)]
struct Seen {
    records: u64,
    changes: u64,
    accepted: [u32; COUNT],
}

impl Seen {
    const NOTHING: Seen = Seen {
        records: 0,
        changes: 0,
        accepted: [0; COUNT],
    };

    fn accept(&mut self, command: EditCommand) {
        if let Some(count) = self.accepted.get_mut(command as usize) {
            *count = count.saturating_add(1);
        }
    }
}

// Makes an edit, unless it is refused, and adds it to the list; whether it is accepted.
fn go_on(
    alloc: Global,
    followed: &mut Followed,
    edits: &mut Vec<Edit>,
    line: Line<'_>,
) -> Result<bool, AllocError> {
    match edit(alloc, line) {
        Ok(edit) => {
            let is_accepted = follow(followed, &edit)?;
            edits.push(edit)?;
            Ok(is_accepted)
        }
        Err(_) => Err(AllocError),
    }
}

// The view agrees with the plain program on the host.
fn check_host(
    alloc: Global,
    followed: &Followed,
    edits: &[Edit],
    host: &[u8],
    seen: &mut Seen,
) -> Outcome {
    match plain::generation(alloc, UNITS, edits, host) {
        Ok(generation) => {
            seen.changes = seen.changes.wrapping_add(generation);
            pass!(check_number(followed.view.count(host), generation));
            check_records(alloc, followed, host, seen)
        }
        Err(_) => check(false, "memory"),
    }
}

// The host's page has the records of the plain program.
fn check_records(alloc: Global, followed: &Followed, host: &[u8], seen: &mut Seen) -> Outcome {
    let records = plain::records(alloc, &followed.config, host)?;
    seen.records = seen.records.wrapping_add(records.len() as u64 / 1024);
    let page = page(alloc, &followed.view, host)?;
    match page.get(1024..) {
        Some(shown) => check_bytes(shown, &records),
        None => check(false, "a header"),
    }
}

// Makes a random list of edits.
fn make_list(
    alloc: Global,
    followed: &mut Followed,
    edits: &mut Vec<Edit>,
    random: &mut Pcg32,
    seen: &mut Seen,
) -> Result<(), AllocError> {
    for _ in 0..EDITS {
        let command = command(random);
        let line = line(command, random);
        if go_on(alloc, followed, edits, line)? {
            seen.accept(command);
        }
    }
    Ok(())
}

// Adds a host last, and allows it a subsystem where that is there; whether it is added.
fn add_host(
    alloc: Global,
    followed: &mut Followed,
    edits: &mut Vec<Edit>,
    random: &mut Pcg32,
) -> Result<bool, AllocError> {
    let is_added = go_on(alloc, followed, edits, Line::HostAdd(b"nqn.new"))?;
    go_on(
        alloc,
        followed,
        edits,
        Line::AllowAdd(name(random), b"nqn.new"),
    )?;
    Ok(is_added)
}

pub const HOSTS: &[&[u8]] = &[b"nqn.h", b"nqn.late", b"nqn.new", b"nqn.stranger"];

// The rows are the hosts.
fn check_hosts(alloc: Global, followed: &Followed, edits: &[Edit], seen: &mut Seen) -> Outcome {
    for (row, host) in HOSTS.iter().enumerate() {
        pass!(check_host(alloc, followed, edits, host, seen).in_row(row));
    }
    Ok(())
}

// The view agrees on each host after a random list of edits.
fn check_edits(
    alloc: Global,
    followed: &mut Followed,
    random: &mut Pcg32,
    seen: &mut Seen,
) -> Outcome {
    let mut edits = Vec::new(alloc);
    let are_made = make_list(alloc, followed, &mut edits, random, seen).is_ok()
        && add_host(alloc, followed, &mut edits, random) == Ok(true);
    check(are_made, "memory for the edits").and(check_hosts(alloc, followed, &edits, seen))
}

fn check_script(alloc: Global, number: u64, seen: &mut Seen) -> Outcome {
    let mut random = Pcg32::new(SEED, number);
    match start(alloc) {
        Ok(mut followed) => check_edits(alloc, &mut followed, &mut random, seen),
        Err(_) => check(false, "memory"),
    }
}

// What was seen is enough; the rows are the commands.
fn check_seen(seen: &Seen) -> Outcome {
    pass!(check(seen.records > 300, "how many records were seen"));
    pass!(check(seen.changes > 300, "how many changes were seen"));
    check_rows(
        &seen.accepted.map(|count| count > 0),
        "an edit of this command that is accepted",
    )
}

#[test]
fn counts_are_those_of_the_plain_program(rt: HostRuntime) -> Outcome {
    let mut seen = Seen::NOTHING;
    for number in 0..SCRIPTS {
        pass!(check_script(rt.alloc(), number, &mut seen).in_script(SEED, number));
    }
    check_seen(&seen)
}
