//! The trie of piles.

ghost use Rattle.std.specs.Prelude.{◌≡◌, ◌≤◌, ◌<◌, ◌^◌, [], ◌∷◌, ◌++◌, IfOk, OnOk, OnErr, IsTrue, map};
ghost use Rattle.std.specs.Prelude.{take, drop, length};
ghost use Rattle.std.specs.List.{flat_map};
ghost use Rattle.lt_format.specs.Trie.{root, named, node_extents, table_total, node_at, with_node, is_node, is_shaped};
ghost use Rattle.lt_format.specs.Changes.{are_new, fits, after_change, appended, freed, without_oldest};
ghost use Rattle.lt_node.specs.View.{IsView};
ghost use Rattle.lt_node.specs.Places.{IsFound};
ghost use Rattle.lt_node.specs.Changing.{change_of, child_of, changed, dealt_entry, freed_groups};

use crate::change::{Change, ChildChange};
use crate::entry::NodeEntry;
use crate::fitting;
use crate::numbers::Numbers;
use crate::place::{place, set, set_all};
use lt_format::NodeId;
use lt_page::NoMemory;
use std::alloc::Global;
use std::marker::Model;

/// The nodes that have tables, by level and number. The numbers of extents are below 65,536.
#[derive(Debug, Drop)]
pub struct Trie {
    levels: u8,
    nodes: Vec<NodeEntry>,
    /// How many tables all nodes have.
    tables: u32,
}

impl Model for Trie {
    ghost use Rattle.lt_node.specs.View.{TrieView, IsKept};

    ghost Value = { TrieView };

    ghost view = { λ trie. record { levels = trie.levels; nodes = trie.nodes.items } };

    ghost invariant = { λ trie. IsKept (record { levels = trie.levels; nodes = trie.nodes.items }) trie.tables };
}

impl Trie {
    /// The empty trie of so many levels, 2 to 5.
    pub fn new(alloc: Global, levels: u8) -> Result<Trie, NoMemory>
        requires least { 2 ≤ levels }
        requires most { levels ≤ 5 }
        ensures { IfOk result (λ trie. trie ≡ record { levels = levels; nodes = [] }) }
    {
        Ok(Trie {
            levels,
            nodes: Vec::new(alloc),
            tables: 0,
        })
    }

    /// How many levels the trie has, 2 to 5.
    pub fn levels(&self) -> u8
        ensures count { result ≡ self.now.levels }
        ensures trie { IsView self.now }
    {
        self.levels
    }

    /// A node's pile, the oldest table first. Empty where the trie does not have the node.
    #[tactic(auto, unfolding(lt_format::specs::Trie::node_at))]
    pub fn pile(&self, node: NodeId) -> &[u32]
        ensures { result.now ≡ (node_at self.now.nodes node).tables }
    {
        match self.find(node) {
            Some(entry) => entry.tables(),
            None => &[],
        }
    }

    /// A node's groups, in order. Empty where the trie does not have the node.
    #[tactic(auto, unfolding(lt_format::specs::Trie::node_at))]
    pub fn groups(&self, node: NodeId) -> &[u32]
        ensures { result.now ≡ (node_at self.now.nodes node).groups }
    {
        match self.find(node) {
            Some(entry) => entry.groups(),
            None => &[],
        }
    }

    /// How many tables a node's last rewriting gave. 0 where the trie does not have the node.
    #[tactic(auto, unfolding(lt_format::specs::Trie::node_at))]
    pub fn base(&self, node: NodeId) -> u32
        ensures { result ≡ (node_at self.now.nodes node).base }
    {
        match self.find(node) {
            Some(entry) => entry.base(),
            None => 0,
        }
    }

    /// How many tables all piles have. In constant time.
    pub fn tables(&self) -> u32
        ensures count { result ≡ table_total self.now.nodes }
        ensures trie { IsView self.now }
    {
        self.tables
    }

    /// The nodes that have tables, by level and number.
    pub fn nodes(&self) -> &[NodeEntry]
        ensures nodes { result.now ≡ self.now.nodes }
        ensures trie { IsView self.now }
    {
        &self.nodes
    }

    /// Sets a node to extents that the trie does not name. Where no name in the trie is greater this
    /// takes a few steps, else a step for each greater one. After an `Err` the trie is as before.
    pub fn set_node(
        &mut self,
        alloc: Global,
        node: NodeId,
        base: u32,
        tables: Numbers,
        groups: Numbers,
    ) -> Result<(), NoMemory>
        requires node { IsTrue (is_node self.old.levels node) }
        requires shaped { IsTrue (is_shaped self.old.levels 65536 node
            (record { base = base; tables = tables; groups = groups })) }
        requires new { IsTrue (are_new 65536 self.old.nodes (tables ++ groups)) }
        ensures ok { OnOk result (self.new ≡ record self.old {
          nodes = with_node self.old.nodes node
              (record { base = base; tables = tables; groups = groups });
        }) }
        ensures err { OnErr result (self.new ≡ self.old) }
    {
        self.nodes.reserve(1)?;
        let before = self.pile(node).len() as u32;
        let after = tables.list().len() as u32;
        let entry = NodeEntry::of(node, base, tables.into_list(), groups.into_list());
        set(&mut self.nodes, entry);
        self.tables = self.tables - before + after;
        Ok(())
    }

    /// Whether the change fits the trie. Takes no memory, and a step for each extent of the trie and
    /// of the change.
    pub fn fits(&self, change: &Change) -> bool
        ensures { result ≡ fits self.now.levels self.now.nodes (change_of change.now) }
    {
        fitting::fits(self, change)
    }

    /// Makes a change that fits. After an `Err` the trie is as before.
    pub fn apply(&mut self, alloc: Global, change: &Change) -> Result<(), NoMemory>
        requires { IsTrue (fits self.old.levels self.old.nodes (change_of change.now)) }
        ensures ok { OnOk result (self.new
            ≡ record self.old { nodes = after_change self.old.nodes (change_of change.now) }) }
        ensures err { OnErr result (self.new ≡ self.old) }
    {
        let entries = self.changed(alloc, change)?;
        self.nodes.reserve(entries.len())?;
        set_all(&mut self.nodes, entries);
        self.tables = count_tables(&self.nodes);
        Ok(())
    }

    /// The extents that the trie no longer names once this change is made. Taken before a commit, so that
    /// giving them back afterwards needs no memory.
    pub fn freed(&self, alloc: Global, change: &Change) -> Result<Vec<u32>, NoMemory>
        ensures { IfOk result (λ extents.
            extents.items ≡ freed self.now.nodes (change_of change.now)) }
    {
        match change {
            Change::Flush { .. } => Ok(Vec::new(alloc)),
            Change::Deal {
                node,
                dropped,
                children,
            } => {
                let dealt = front(self.pile(*node), *dropped as usize);
                let mut extents = Vec::from_slice(alloc, dealt)?;
                self.free_groups(&mut extents, children.list())?;
                Ok(extents)
            }
            Change::Rewrite { node, .. } => joined(alloc, self.pile(*node), self.groups(*node)),
        }
    }

    /// The extents that the trie names: of each node the tables and then the groups.
    pub fn referenced(&self, alloc: Global) -> Result<Vec<u32>, NoMemory>
        ensures named { IfOk result (λ extents. extents.items ≡ named self.now.nodes) }
        ensures trie { IsView self.now }
    {
        named(alloc, &self.nodes)
    }

    fn find(&self, node: NodeId) -> Option<&NodeEntry>
        ensures { IsFound self.now.nodes node result }
    {
        match place(&self.nodes, node) {
            Ok(index) => Some(&self.nodes[index]),
            Err(_) => None,
        }
    }

    /// The nodes that a change sets, each as it is then.
    fn changed(&self, alloc: Global, change: &Change) -> Result<Vec<NodeEntry>, NoMemory>
        requires { IsTrue (fits self.now.levels self.now.nodes (change_of change.now)) }
        ensures { IfOk result (λ entries.
            entries.items ≡ changed self.now.nodes (change_of change.now)) }
    {
        match change {
            Change::Flush { tables } => {
                let entry = self.flushed(alloc, tables.list())?;
                Ok(vec![in alloc; entry]?)
            }
            Change::Deal {
                node,
                dropped,
                children,
            } => {
                let mut entries = self.given(alloc, children.list())?;
                entries.push(self.taken(alloc, *node, *dropped as usize)?)?;
                Ok(entries)
            }
            Change::Rewrite {
                node,
                tables,
                groups,
            } => {
                let entry = rewritten(alloc, *node, tables.list(), groups.list())?;
                Ok(vec![in alloc; entry]?)
            }
        }
    }

    /// The root with tables behind its pile.
    fn flushed(&self, alloc: Global, tables: &[u32]) -> Result<NodeEntry, NoMemory>
        ensures { IfOk result (λ entry.
            entry ≡ (root, appended (node_at self.now.nodes root) tables.now)) }
    {
        let root = NodeId::ROOT;
        Ok(NodeEntry::of(
            root,
            self.base(root),
            joined(alloc, self.pile(root), tables)?,
            joined(alloc, self.groups(root), &[])?,
        ))
    }

    /// The children of a deal with what it gives them.
    fn given(&self, alloc: Global, children: &[ChildChange]) -> Result<Vec<NodeEntry>, NoMemory>
        ensures { IfOk result (λ entries.
            entries.items ≡ map (dealt_entry self.now.nodes) (map child_of children.now)) }
    {
        let mut entries = Vec::new(alloc);
        for child in children {
            entries.push(self.given_child(alloc, child)?)?;
        }
        Ok(entries)
    }

    /// A child with its new tables, and with the groups that stay and the new ones.
    fn given_child(&self, alloc: Global, child: &ChildChange) -> Result<NodeEntry, NoMemory>
        ensures { IfOk result (λ entry. entry ≡ dealt_entry self.now.nodes (child_of child.now)) }
    {
        let kept = front(self.groups(child.node), child.kept_groups as usize);
        Ok(NodeEntry::of(
            child.node,
            self.base(child.node),
            joined(alloc, self.pile(child.node), child.tables.list())?,
            joined(alloc, kept, child.groups.list())?,
        ))
    }

    /// Puts the groups that children do not keep behind the others.
    fn free_groups(&self, extents: &mut Vec<u32>, children: &[ChildChange]) -> Result<(), NoMemory>
        ensures { OnOk result (extents.new.items
            ≡ extents.old.items
            ++ flat_map (freed_groups self.now.nodes) (map child_of children.now)) }
    {
        for child in children {
            let groups = behind(self.groups(child.node), child.kept_groups as usize);
            extents.extend_from_slice(groups)?;
        }
        Ok(())
    }

    /// A node without its oldest tables.
    fn taken(&self, alloc: Global, node: NodeId, dropped: usize) -> Result<NodeEntry, NoMemory>
        ensures { IfOk result (λ entry.
            entry ≡ (node, without_oldest (node_at self.now.nodes node) dropped)) }
    {
        Ok(NodeEntry::of(
            node,
            self.base(node),
            joined(alloc, behind(self.pile(node), dropped), &[])?,
            joined(alloc, self.groups(node), &[])?,
        ))
    }
}

/// A last-level node with a new pile and new groups.
fn rewritten(
    alloc: Global,
    node: NodeId,
    tables: &[u32],
    groups: &[u32],
) -> Result<NodeEntry, NoMemory>
    requires { length tables.now < 2 ^ 32 }
    ensures { IfOk result (λ entry. entry
        ≡ (node, record { base = length tables.now; tables = tables.now; groups = groups.now })) }
{
    Ok(NodeEntry::of(
        node,
        tables.len() as u32,
        joined(alloc, tables, &[])?,
        joined(alloc, groups, &[])?,
    ))
}

/// One list behind another.
fn joined(alloc: Global, first: &[u32], second: &[u32]) -> Result<Vec<u32>, NoMemory>
    ensures { IfOk result (λ list. list.items ≡ first.now ++ second.now) }
{
    let mut list = Vec::from_slice(alloc, first)?;
    list.extend_from_slice(second)?;
    Ok(list)
}

/// The first numbers of a list, as many as are wanted or there are.
fn front(list: &[u32], count: usize) -> &[u32]
    ensures { result.now ≡ take count list.now }
{
    if count < list.len() {
        &list[..count]
    } else {
        list
    }
}

/// A list without its first numbers.
fn behind(list: &[u32], count: usize) -> &[u32]
    ensures { result.now ≡ drop count list.now }
{
    if count < list.len() {
        &list[count..]
    } else {
        &[]
    }
}

/// How many tables the nodes have.
fn count_tables(nodes: &[NodeEntry]) -> u32
    requires { table_total nodes.now ≤ 65536 }
    ensures { result ≡ table_total nodes.now }
{
    let mut count = 0;
    for entry in nodes {
        count += entry.tables().len();
    }
    count as u32
}

/// The extents that nodes name.
fn named(alloc: Global, nodes: &[NodeEntry]) -> Result<Vec<u32>, NoMemory>
    ensures { IfOk result (λ extents. extents.items ≡ named nodes.now) }
{
    let mut extents = Vec::new(alloc);
    for entry in nodes {
        name(&mut extents, entry)?;
    }
    Ok(extents)
}

fn name(extents: &mut Vec<u32>, entry: &NodeEntry) -> Result<(), NoMemory>
    ensures { OnOk result (extents.new.items ≡ extents.old.items ++ node_extents entry.now.1) }
{
    extents.extend_from_slice(entry.tables())?;
    extents.extend_from_slice(entry.groups())?;
    Ok(())
}
