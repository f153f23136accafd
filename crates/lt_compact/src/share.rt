//! What a node gets of a deal or a rewriting.

ghost use Rattle.std.specs.Prelude.{◌≡◌, ◌+◌, ◌*◌, ◌<◌, ◌≤◌, ◌^◌, [], length, map, slice_index_or};
ghost use Rattle.lt_tables.specs.Cut.{cut, cut_counts, pieces};
ghost use Rattle.lt_tables.specs.Placement.{entry_of};
ghost use Rattle.lt_format.specs.Trie.{groups_for, is_last_level};
ghost use Rattle.lt_image.specs.Shares.{kept_groups, new_groups, share_extents};
ghost use Rattle.lt_htable.specs.Cutting.{IsPart};
ghost use Rattle.lt_compact.specs.Sharing.{IsCut};

use lt_bucket::Item;
use lt_format::NodeId;
use std::marker::Model;

/// Tables for a node, behind those of its pile: the items of all of them in one list, and how many each
/// table takes.
#[derive(Drop)]
pub(super) struct Share {
    node: NodeId,
    behind: Vec<u32>,
    items: Vec<Item>,
    counts: Vec<usize>,
}

impl Model for Share {
    ghost use Rattle.lt_image.specs.Shares.{Share};
    ghost use Rattle.lt_tables.specs.Cut.{pieces};
    ghost use Rattle.lt_compact.specs.Sharing.{IsCut};

    ghost Value = { Share };

    ghost view = { λ s. record {
      node = s.node;
      behind = s.behind.items;
      parts = pieces s.counts.items s.items.items;
    } };

    ghost invariant = { λ s. IsCut s.behind.items s.items.items s.counts.items };
}

impl Share {
    /// The tables that a list is cut into, for a node and behind tables of it. Takes no memory.
    pub(super) fn of(node: NodeId, behind: Vec<u32>, items: Vec<Item>, counts: Vec<usize>) -> Share
        requires { IsCut behind.items items.items counts.items }
        ensures { result ≡ record { node = node; behind = behind.items; parts = cut items.items } }
    {
        Share {
            node,
            behind,
            items,
            counts,
        }
    }

    pub(super) fn node(&self) -> NodeId
        ensures { result ≡ self.now.node }
    {
        self.node
    }

    /// The tables that the node has already.
    pub(super) fn behind(&self) -> &[u32]
        ensures behind { result.now ≡ self.now.behind }
        ensures few { length result.now ≤ 65536 }
    {
        &self.behind
    }

    /// How many tables the node gets.
    pub(super) fn tables(&self) -> usize
        ensures count { result ≡ length self.now.parts }
        ensures few { result < 2 ^ 32 }
    {
        self.counts.len()
    }

    /// How many of the node's groups stay.
    pub(super) fn kept_groups(&self, levels: u8) -> usize
        ensures count { result ≡ kept_groups levels self.now }
        ensures few { result ≤ 1024 }
    {
        if is_last_level(levels, self.node) {
            self.behind.len() / 64
        } else {
            0
        }
    }

    /// How many extents it takes: for its tables and its new groups.
    pub(super) fn extents(&self, levels: u8) -> usize
        ensures count { result ≡ share_extents levels self.now }
        ensures few { result < 2 ^ 33 }
    {
        self.counts.len() + self.new_groups(levels)
    }

    fn new_groups(&self, levels: u8) -> usize
        ensures count { result ≡ new_groups levels self.now }
        ensures few { result < 2 ^ 32 }
    {
        if is_last_level(levels, self.node) {
            groups_for(self.behind.len() + self.counts.len()) - self.behind.len() / 64
        } else {
            0
        }
    }

    /// The items of one of its tables.
    pub(super) fn part(&self, place: usize) -> &[Item]
        requires { place < length self.now.parts }
        ensures items { result.now ≡ slice_index_or self.now.parts place [] }
        ensures part { IsPart result.now }
    {
        part_of(&self.items, &self.counts, place)
    }
}

/// The items of one of the tables that a list is cut into.
fn part_of<'a>(items: &'a [Item], counts: &[usize], place: usize) -> &'a [Item]
    requires counts { counts.now ≡ cut_counts (map entry_of items.now) }
    requires place { place < length counts.now }
    ensures { result.now ≡ slice_index_or (pieces counts.now items.now) place [] }
{
    let mut rest = items;
    for count in &counts[..place] {
        rest = rest.split_at(*count).1;
    }
    rest.split_at(counts[place]).0
}

/// Whether a node is of the last level.
pub(super) fn is_last_level(levels: u8, node: NodeId) -> bool
    ensures { result ≡ is_last_level levels node }
{
    node.level as u32 + 1 == levels as u32
}

/// How many groups so many tables have.
fn groups_for(tables: usize) -> usize
    requires { tables < 2 ^ 33 }
    ensures { result ≡ groups_for tables }
{
    tables.div_ceil(64)
}
