//! The groups of nodes, the sets of processes on them, and the losses of nodes that they bear.
#![tactic(auto)]

ghost use Rattle.std.specs.Prelude.{◌≡◌, ◌≢◌, ◌↔◌, ℕ, ◌+◌, ◌*◌, ◌%◌, ◌<◌, ◌≤◌, ◌&&◌, true, length, slice_index, IsTrue, IfOk, IfSome, IfNone};
ghost use Rattle.scr_base.specs.Sets.{group_count, nodes_of_group, fits_set, fits_sets, lost_members, bears_members, bears_nodes};
ghost use Rattle.process_sets.specs.Group.{members_of, is_lost, spares_neighbours};
ghost use Rattle.process_sets.specs.Small.{IsFirstSmall};

use scr_base::{Scheme, Shape};
use thiserror::Error;

/// The sets of a site: one for each group of nodes and each local number of a rank.
#[derive(Clone, Copy, Debug)]
pub struct Sets {
    pub nodes: u8,
    pub scheme: Scheme,
    pub size: u8,
    pub ghost few: { nodes ≤ 16 },
    pub ghost sized: { 2 ≤ size },
    pub ghost fits: { IsTrue (fits_sets scheme size nodes) },
}

/// Why there are no sets.
#[derive(Clone, Copy, Debug, PartialEq, Eq, Error)]
pub enum SetError {
    /// The sets of this group have too few members for the scheme; those of the groups before it have enough.
    #[error("group {group} has too few nodes for the scheme")]
    SetTooSmall { group: u8 },
    /// There is no memory.
    #[error("out of memory")]
    Memory,
}

impl Sets {
    /// The sets of a site of this shape. SetTooSmall where a group has too few nodes for the scheme.
    pub fn new(shape: Shape, scheme: Scheme, size: u8) -> Result<Sets, SetError>
        requires { 2 ≤ size }
        ensures nodes { IfOk result (λ sets. sets.nodes ≡ shape.nodes) }
        ensures scheme { IfOk result (λ sets. sets.scheme ≡ scheme) }
        ensures size { IfOk result (λ sets. sets.size ≡ size) }
        ensures too_small { (group : ℕ) → (result ≡ Err (SetError.SetTooSmall group)) ↔ IsFirstSmall scheme shape.nodes size group }
        ensures memory { result ≢ Err SetError.Memory }
    {
        match first_small(scheme, shape.nodes, size) {
            Some(group) => Err(SetError::SetTooSmall { group }),
            None => Ok(Sets {
                nodes: shape.nodes,
                scheme,
                size,
            }),
        }
    }

    /// The group of a node.
    pub fn group_of(&self, node: u8) -> u8
        requires { node < self.now.nodes }
        ensures { result ≡ node % group_count self.now.nodes self.now.size }
    {
        node % groups_of(self.nodes, self.size)
    }

    /// The place of a node among those of its group, and so of its members in their sets.
    pub fn place_of(&self, node: u8) -> u8
        requires { node < self.now.nodes }
        ensures within { result < length (nodes_of_group self.now.nodes self.now.size (node % group_count self.now.nodes self.now.size)) }
        ensures there { slice_index (nodes_of_group self.now.nodes self.now.size (node % group_count self.now.nodes self.now.size)) result ≡ node }
    {
        node / groups_of(self.nodes, self.size)
    }

    /// Whether each set bears the loss of the members on these nodes.
    pub fn bears(&self, lost: &Vec<u8>) -> bool
        ensures { result ≡ bears_nodes self.now.scheme self.now.size self.now.nodes lost.now.items }
    {
        let groups = groups_of(self.nodes, self.size);
        for group in 0..groups {
            if !group_bears(self.scheme, self.nodes, groups, group, lost) {
                return false;
            }
        }
        true
    }
}

/// How many groups that many nodes form.
fn groups_of(nodes: u8, size: u8) -> u8
    requires { 1 ≤ size }
    ensures { result ≡ group_count nodes size }
{
    (nodes / size).max(1)
}

/// The first group whose sets are too small.
fn first_small(scheme: Scheme, nodes: u8, size: u8) -> Option<u8>
    requires few { nodes ≤ 16 }
    requires sized { 1 ≤ size }
    ensures found { IfSome result (IsFirstSmall scheme nodes size) }
    ensures none { IfNone result ((i : ℕ) → i < group_count nodes size → fits_set scheme (length (nodes_of_group nodes size i)) ≡ true) }
{
    let groups = groups_of(nodes, size);
    for group in 0..groups {
        if !fits(scheme, count_of(nodes, groups, group)) {
            return Some(group);
        }
    }
    None
}

/// Whether a set of this many members may have the scheme.
fn fits(scheme: Scheme, members: u8) -> bool
    ensures { result ≡ fits_set scheme members }
{
    match scheme {
        Scheme::Single => true,
        Scheme::Partner | Scheme::Xor => members >= 2,
        Scheme::Rs { shares } => shares < members,
    }
}

/// How many nodes a group has: the first groups may have one more than the others.
fn count_of(nodes: u8, groups: u8, group: u8) -> u8
    requires few { nodes ≤ 16 }
    requires within { group < groups }
    ensures { result ≡ length (members_of nodes groups group) }
{
    let rounds = nodes / groups;
    if group < nodes % groups {
        rounds + 1
    } else {
        rounds
    }
}

/// The node of a member: one more round of groups for each.
fn node_of(nodes: u8, groups: u8, group: u8, member: u8) -> u8
    requires few { nodes ≤ 16 }
    requires group_within { group < groups }
    requires member_within { member < length (members_of nodes groups group) }
    ensures { result ≡ slice_index (members_of nodes groups group) member }
{
    group + member * groups
}

/// Whether each set of a group bears the loss of the members on these nodes.
fn group_bears(scheme: Scheme, nodes: u8, groups: u8, group: u8, lost: &Vec<u8>) -> bool
    requires few { nodes ≤ 16 }
    requires within { group < groups }
    ensures { result ≡ bears_members scheme (length (members_of nodes groups group)) (lost_members (members_of nodes groups group) lost.now.items) }
{
    match scheme {
        Scheme::Single => lost_count(nodes, groups, group, lost) == 0,
        Scheme::Partner => bears_neighbours(nodes, groups, group, lost),
        Scheme::Xor => lost_count(nodes, groups, group, lost) <= 1,
        Scheme::Rs { shares } => lost_count(nodes, groups, group, lost) <= shares,
    }
}

/// How many members of a group's set are on lost nodes.
fn lost_count(nodes: u8, groups: u8, group: u8, lost: &Vec<u8>) -> u8
    requires few { nodes ≤ 16 }
    requires within { group < groups }
    ensures { result ≡ length (lost_members (members_of nodes groups group) lost.now.items) }
{
    let mut count = 0;
    for member in 0..count_of(nodes, groups, group) {
        if stands_lost(nodes, groups, group, member, lost) {
            count += 1;
        }
    }
    count
}

/// Whether no member and the next are on lost nodes.
fn bears_neighbours(nodes: u8, groups: u8, group: u8, lost: &Vec<u8>) -> bool
    requires few { nodes ≤ 16 }
    requires within { group < groups }
    ensures { result ≡ spares_neighbours (members_of nodes groups group) lost.now.items }
{
    for member in 0..count_of(nodes, groups, group) {
        if pair_lost(nodes, groups, group, member, lost) {
            return false;
        }
    }
    true
}

/// Whether a member and the next are on lost nodes.
fn pair_lost(nodes: u8, groups: u8, group: u8, member: u8, lost: &Vec<u8>) -> bool
    requires few { nodes ≤ 16 }
    requires group_within { group < groups }
    requires member_within { member < length (members_of nodes groups group) }
    ensures { result ≡ (is_lost (members_of nodes groups group) lost.now.items member
        && is_lost (members_of nodes groups group) lost.now.items ((member + 1) % length (members_of nodes groups group))) }
{
    let members = count_of(nodes, groups, group);
    let next = (member + 1) % members;
    stands_lost(nodes, groups, group, member, lost) && stands_lost(nodes, groups, group, next, lost)
}

/// Whether a member is on a lost node.
fn stands_lost(nodes: u8, groups: u8, group: u8, member: u8, lost: &Vec<u8>) -> bool
    requires few { nodes ≤ 16 }
    requires group_within { group < groups }
    requires member_within { member < length (members_of nodes groups group) }
    ensures { result ≡ is_lost (members_of nodes groups group) lost.now.items member }
{
    lost.contains(&node_of(nodes, groups, group, member))
}
