//! The lists of two hosts and of a stranger beside a plain filter and sort, on random edits, and whether an edit
//! changes what they see beside a plain comparison.
use super::followed::{Followed, HOSTS, follow, start};
use crate::drawn::{host, pick, present, sees, subsystem};
use nvt_config::{Access, Config, Namespace, Visibility};
use rand_core::utils::NextWord;
use rand_pcg::Pcg32;
use std::alloc::{AllocError, Global};
use testkit_edits::{A, B, H0, H1, Line, on_disk};
use testkit_tables::{Outcome, Placed, check, check_bytes, check_rows, pass};

const SCRIPTS: u64 = 20;

const EDITS: usize = 60;

const SEED: u64 = 0x6163_7469;

const NSIDS: &[u32] = &[1, 2, 3, 64, 255, 256, 1_024, 1_025, 4_095, 4_096];

// Below the least, at each of some, between them, and above all.
const ABOVE: &[u32] = &[
    0,
    1,
    63,
    64,
    100,
    256,
    1_024,
    1_025,
    4_095,
    4_096,
    0xFFFF_FFFD,
];

// A show goes, if one is there.
fn hide(random: &mut Pcg32, config: &Config) -> Line<'static> {
    let at = random.next_word() as usize % config.shows().len().max(1);
    let Some(show) = config.shows().get(at) else {
        return Line::NamespaceHide(A, 1, H0);
    };
    let nqn = if show.subsystem.as_bytes() == B { B } else { A };
    let host = if show.host.as_bytes() == H1 { H1 } else { H0 };
    Line::NamespaceHide(nqn, u64::from(show.nsid), host)
}

// An edit of who sees a namespace, or of its size.
fn sight(random: &mut Pcg32, config: &Config) -> Line<'static> {
    let (nqn, nsid) = present(random, config);
    match random.next_word() % 10 {
        0 => Line::NamespaceSize(nqn, nsid, u64::from(random.next_word() % 2 + 1)),
        1 => Line::NamespaceView(nqn, nsid, Visibility::All),
        2..=4 => Line::NamespaceView(nqn, nsid, Visibility::Named),
        5..=7 => Line::NamespaceShow(nqn, nsid, host(random)),
        8 => Line::NamespaceHide(nqn, nsid, host(random)),
        _ => hide(random, config),
    }
}

fn line(random: &mut Pcg32, config: &Config) -> Line<'static> {
    let nqn = subsystem(random);
    let nsid = pick(random, NSIDS);
    let disk = (random.next_word() % 12) as u8;
    match random.next_word() % 16 {
        0 => Line::NamespaceDel(nqn, nsid),
        1 => Line::SubsystemDel(nqn),
        2 | 3 => Line::SubsystemAdd(nqn, b"SN", Access::Open),
        4 if disk < 4 => Line::HostDel(host(random)),
        4 | 5 => Line::HostAdd(if disk < 6 { H0 } else { H1 }),
        6..=11 => sight(random, config),
        _ => Line::NamespaceAdd(nqn, on_disk(nsid, disk, 1)),
    }
}

// Whether a namespace is of this subsystem, and this host sees it.
fn sees_in(config: &Config, host: &[u8], subsystem: &[u8], namespace: &Namespace) -> bool {
    namespace.subsystem.as_bytes() == subsystem && sees(config, host, namespace)
}

// The bytes of the list, by a filter and a sort.
fn plain(
    alloc: Global,
    config: &Config,
    host: &[u8],
    subsystem: &[u8],
    above: u32,
) -> Result<Vec<u8>, AllocError> {
    let mut nsids = Vec::new(alloc);
    for namespace in config.namespaces() {
        if sees_in(config, host, subsystem, namespace) && namespace.nsid > above {
            nsids.push(namespace.nsid)?;
        }
    }
    nsids.sort_unstable();
    let mut bytes = Vec::new(alloc);
    for nsid in &nsids {
        bytes.extend_from_slice(&nsid.to_le_bytes())?;
    }
    Ok(bytes)
}

// Whether a host sees a namespace as it is here.
fn sees_same(config: &Config, host: &[u8], subsystem: &[u8], namespace: &Namespace) -> bool {
    config.namespaces().iter().any(|it| {
        it.nsid == namespace.nsid
            && (it.blocks, it.uuid) == (namespace.blocks, namespace.uuid)
            && sees_in(config, host, subsystem, it)
    })
}

// Whether a host sees each namespace of the one that it sees in the other too, as it is.
fn keeps(one: &Config, other: &Config, host: &[u8], subsystem: &[u8]) -> bool {
    for namespace in one.namespaces() {
        if sees_in(one, host, subsystem, namespace)
            && !sees_same(other, host, subsystem, namespace)
        {
            return false;
        }
    }
    true
}

// What was seen: the bytes of lists, edits that changed what one of the two hosts sees alone, and such that changed
// nothing of what the stranger sees.
#[derive(Clone, Copy)]
struct Seen {
    bytes: usize,
    apart: usize,
    hidden: usize,
}

// The list is the plain one, with zeros behind it.
fn check_list(bytes: &[u8], list: &[u8]) -> Outcome {
    let (front, rest) = bytes.split_at(list.len().min(bytes.len()));
    pass!(check_bytes(front, list));
    check(!rest.iter().any(|byte| *byte != 0), "zeros behind the list")
}

// So many bytes of the list are looked at. How many it has is added.
fn check_above(
    alloc: Global,
    followed: &Followed,
    host: &[u8],
    subsystem: &[u8],
    above: u32,
    len: usize,
    seen: &mut Seen,
) -> Outcome {
    let list = plain(alloc, &followed.config, host, subsystem, above)?;
    let mut bytes = vec![in alloc; 0xA5; len]?;
    followed.view.window(host, subsystem, above, &mut bytes);
    seen.bytes = seen.bytes.saturating_add(list.len());
    check_list(&bytes, &list)
}

// The rows are those of `ABOVE`.
fn check_lists(
    alloc: Global,
    followed: &Followed,
    host: &[u8],
    subsystem: &[u8],
    seen: &mut Seen,
) -> Outcome {
    for (row, above) in ABOVE.iter().enumerate() {
        let outcome = check_above(alloc, followed, host, subsystem, *above, 4_096, seen);
        pass!(outcome.in_row(row));
    }
    Ok(())
}

// The whole lists of each host, which is the row, and whether the edit changed them.
fn check_hosts(alloc: Global, followed: &Followed, before: &Config, seen: &mut Seen) -> Outcome {
    let after = &followed.config;
    for (row, (host, changed)) in HOSTS.iter().zip(followed.changed).enumerate() {
        let kept = [A, B].map(|nqn| keeps(before, after, host, nqn)
            && keeps(after, before, host, nqn));
        pass!(check(changed == kept.map(|kept| !kept), "what changed").in_row(row));
        pass!(check_above(alloc, followed, host, A, 0, 64, seen).in_row(row));
        pass!(check_above(alloc, followed, host, B, 0, 64, seen).in_row(row));
    }
    Ok(())
}

fn see(changed: &[[bool; 2]; 3], seen: &mut Seen) {
    let is_apart = changed[0] != changed[1];
    let is_hidden = is_apart && changed[2] == [false; 2];
    seen.apart = seen.apart.saturating_add(usize::from(is_apart));
    seen.hidden = seen.hidden.saturating_add(usize::from(is_hidden));
}

fn check_edit(alloc: Global, followed: &mut Followed, line: Line<'_>, seen: &mut Seen) -> Outcome {
    let before = followed.config.try_clone()?;
    if follow(alloc, followed, line)? {
        see(&followed.changed, seen);
        check_hosts(alloc, followed, &before, seen)
    } else {
        Ok(())
    }
}

// Makes random edits, of which many are refused, and compares the lists of both subsystems.
fn check_edits(
    alloc: Global,
    followed: &mut Followed,
    random: &mut Pcg32,
    seen: &mut Seen,
) -> Outcome {
    for step in 0..EDITS {
        let line = match step {
            0 => Line::HostAdd(H0),
            1 => Line::HostAdd(H1),
            _ => line(random, &followed.config),
        };
        pass!(check_edit(alloc, followed, line, seen).at_step(step));
    }
    for host in HOSTS {
        pass!(check_lists(alloc, followed, host, A, seen));
        pass!(check_lists(alloc, followed, host, B, seen));
    }
    Ok(())
}

fn check_script(alloc: Global, number: u64, seen: &mut Seen) -> Outcome {
    let mut random = Pcg32::new(SEED, number);
    let mut followed = start(alloc)?;
    check_edits(alloc, &mut followed, &mut random, seen)
}

#[test]
fn lists_are_those_of_a_filter_and_sort(rt: HostRuntime) -> Outcome {
    let mut seen = Seen {
        bytes: 0,
        apart: 0,
        hidden: 0,
    };
    for number in 0..SCRIPTS {
        pass!(check_script(rt.alloc(), number, &mut seen).in_script(SEED, number));
    }
    let rows = [seen.bytes > 1_000, seen.apart > 20, seen.hidden > 12];
    check_rows(&rows, "this often seen")
}
