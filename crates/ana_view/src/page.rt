//! The bytes of the Asymmetric Namespace Access log page (Base 2.0, section 5.16.1.13).
ghost use Rattle.std.specs.Prelude.{◌≡◌, ◌≤◌, ◌+◌, ◌*◌, ◌++◌, ◌^◌, ℕ, List, if◌then◌else◌, length};
ghost use Rattle.nvt_fields.specs.Window.{window};
ghost use Rattle.config_lists.specs.Namespace.{nsid_max};
ghost use Rattle.ana_view.specs.Counts.{Counts, count_in};
ghost use Rattle.ana_view.specs.Group.{state_code};
ghost use Rattle.ana_view.specs.Page.{ana_page, descriptor_bytes, descriptor_head, nsid_bytes};
ghost use Rattle.ana_view.specs.View.{AreFew};

use crate::counts::AnaCounts;
use crate::group_list::AnaGroup;
use crate::state::state_code;
use nvt_fields::write_part;

const HEADER_LEN: u64 = 16;

const DESCRIPTOR_LEN: u64 = 32;

const NSID_LEN: u64 = 4;

/// Fills `out` with the page of these groups and counts from an offset on, and with zeros past its end.
pub(crate) fn write_page(
    out: &mut [u8],
    offset: u64,
    groups: &[AnaGroup],
    counts: &AnaCounts,
    groups_only: bool,
)
    requires { AreFew groups.now }
    ensures { out.new ≡ window (ana_page groups_only counts.now groups.now) offset
        (length out.old) }
{
    out.fill(0);
    write_part(out, offset, 0, &counts.changes().to_le_bytes());
    write_part(out, offset, 8, &(groups.len() as u16).to_le_bytes());
    let mut at = HEADER_LEN;
    for group in groups {
        write_group(out, offset, at, group, counts, groups_only);
        at += descriptor_len(group, groups_only);
    }
}

/// The length of the page of these groups, in bytes.
pub(crate) fn page_len(groups: &[AnaGroup], groups_only: bool) -> u64
    requires { AreFew groups.now }
    ensures { (counts : Counts) → result ≡ length (ana_page groups_only counts groups.now) }
{
    let mut len = HEADER_LEN;
    for group in groups {
        len += descriptor_len(group, groups_only);
    }
    len
}

// How many bytes the descriptor of a group has.
fn descriptor_len(group: &AnaGroup, groups_only: bool) -> u64
    requires { length group.now.nsids ≤ nsid_max }
    ensures { result ≡ (if groups_only then 32 else 32 + 4 * length group.now.nsids) }
{
    if groups_only {
        DESCRIPTOR_LEN
    } else {
        DESCRIPTOR_LEN + NSID_LEN * group.nsids().len() as u64
    }
}

// Goes on with a page of `at` bytes, of which `out` shows a part: with the descriptor of the group.
fn write_group(
    out: &mut [u8],
    offset: u64,
    at: u64,
    group: &AnaGroup,
    counts: &AnaCounts,
    groups_only: bool,
)
    requires place { at ≤ 2 ^ 32 }
    requires few { length group.now.nsids ≤ nsid_max }
    ensures { (page : List ℕ) → length page ≡ at → out.old ≡ window page offset (length out.old)
        → out.new ≡ window (page ++ descriptor_bytes groups_only counts.now group.now) offset
        (length out.old) }
{
    if groups_only {
        write_head(out, offset, at, group, counts, 0);
    } else {
        let nsids = group.nsids();
        write_head(out, offset, at, group, counts, nsids.len() as u32);
        write_nsids(out, offset, at + DESCRIPTOR_LEN, nsids);
    }
}

// .. with the first part of it, which says that so many identifiers follow.
fn write_head(
    out: &mut [u8],
    offset: u64,
    at: u64,
    group: &AnaGroup,
    counts: &AnaCounts,
    count: u32,
)
    ensures { (page : List ℕ) → length page ≡ at → out.old ≡ window page offset (length out.old)
        → out.new ≡ window (page ++ descriptor_head group.now.id count
        (count_in counts.now.groups group.now.id) (state_code group.now.state)) offset
        (length out.old) }
{
    let head = Head {
        group: group.id(),
        count,
        changes: counts.of(group.id()),
        state: state_code(group.state()),
    };
    write_part(out, offset, at, &head.bytes());
}

// .. with identifiers.
fn write_nsids(out: &mut [u8], offset: u64, at: u64, nsids: &[u32])
    requires place { at ≤ 2 ^ 33 }
    requires few { length nsids.now ≤ nsid_max }
    ensures { (page : List ℕ) → length page ≡ at → out.old ≡ window page offset (length out.old)
        → out.new ≡ window (page ++ nsid_bytes nsids.now) offset (length out.old) }
{
    let mut next = at;
    for &nsid in nsids {
        write_part(out, offset, next, &nsid.to_le_bytes());
        next += NSID_LEN;
    }
}

// The first part of a descriptor, of 32 bytes.
#[derive(Drop)]
struct Head {
    group: u32,
    // How many identifiers follow.
    count: u32,
    changes: u64,
    // The code of its state.
    state: u8,
}

impl Head {
    #[tactic(auto, unfolding(crate::specs::Page::descriptor_head))]
    fn bytes(&self) -> [u8; 32]
        ensures { result ≡ descriptor_head self.now.group self.now.count self.now.changes
            self.now.state }
    {
        let g = self.group.to_le_bytes();
        let n = self.count.to_le_bytes();
        let c = self.changes.to_le_bytes();
        [
            g[0], g[1], g[2], g[3], n[0], n[1], n[2], n[3], c[0], c[1], c[2], c[3], c[4], c[5],
            c[6], c[7], self.state, 0, 0, 0, 0, 0, 0, 0, 0, 0, 0, 0, 0, 0, 0, 0,
        ]
    }
}
