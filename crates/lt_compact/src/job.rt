//! A job in flight.

ghost use Rattle.std.specs.Prelude.{◌≡◌, ℕ, ◌≤◌, ◌||◌, true, false, IfOk, IsTrue, length};
ghost use Rattle.std.specs.Option.{option_map};
ghost use Rattle.lt_terms.specs.Bytes.{is_in};
ghost use Rattle.lt_alloc.specs.Extents.{is_free};
ghost use Rattle.lt_format.specs.Trie.{all_distinct, is_last_level, node_at};
ghost use Rattle.lt_node.specs.Changing.{change_of as change_shown};
ghost use Rattle.lt_compact.specs.Jobs.{begun, change_of, is_filled, is_whole, taken_in};
ghost use Rattle.lt_compact.specs.Extents.{AllTaken, filters_in};
ghost use Rattle.lt_compact.specs.Inside.{stage_in};

use crate::giving::give_back;
use crate::scanning::Found;
use crate::share::Share;
use lt_alloc::Extents;
use lt_bloom::FilterPage;
use lt_format::NodeId;
use lt_node::{Change, Trie};
use lt_page::NoMemory;
use std::alloc::Global;
use std::marker::Model;

/// The deal of an inner node's oldest tables, or the rewriting of a last-level node's pile, made step by
/// step. It begins at the tables that the node has, and rests on nothing else that the trie changes.
#[derive(Drop)]
pub struct Job {
    pub(super) levels: u8,
    pub(super) node: NodeId,
    /// The tables, the oldest first.
    pub(super) sources: Vec<u32>,
    pub(super) stage: Stage,
    /// What the commit will change, once the extents are taken.
    pub(super) change: Option<Change>,
    /// The filters of the tables that were built for inner children, in the order of their extents.
    pub(super) filters: Vec<FilterPage>,
}

/// How far a job has come.
#[derive(Drop)]
pub(super) enum Stage {
    Scanning(Found),
    /// So many extents are needed.
    Planned {
        shares: Vec<Share>,
        needed: u32,
    },
    /// So many of these extents are filled.
    Filling {
        shares: Vec<Share>,
        numbers: Vec<u32>,
        filled: u32,
    },
}

impl Model for Job {
    ghost use Rattle.lt_compact.specs.Jobs.{JobView};
    ghost use Rattle.lt_compact.specs.Inside.{job_in, IsKept};

    ghost Value = { JobView };

    ghost view = { job_in };

    ghost invariant = { IsKept };
}

impl Job {
    /// The deal of an inner node's pile as it is.
    pub fn deal(alloc: Global, trie: &Trie, node: NodeId) -> Result<Job, NoMemory>
        requires inner { is_last_level trie.now.levels node ≡ false }
        requires some { 1 ≤ length (node_at trie.now.nodes node).tables }
        ensures { IfOk result (λ job. job ≡ begun trie.now.levels trie.now.nodes node) }
    {
        begin(alloc, trie, node)
    }

    /// The rewriting of a last-level node's pile.
    pub fn rewrite(alloc: Global, trie: &Trie, node: NodeId) -> Result<Job, NoMemory>
        requires last { is_last_level trie.now.levels node ≡ true }
        requires some { 1 ≤ length (node_at trie.now.nodes node).tables }
        ensures { IfOk result (λ job. job ≡ begun trie.now.levels trie.now.nodes node) }
    {
        begin(alloc, trie, node)
    }

    /// The change that the commit makes. `Some` exactly where the job is ready.
    pub fn change(&self) -> Option<&Change>
        ensures { option_map (λ c. change_shown c.now) result ≡ change_of self.now }
    {
        if self.stage.is_filled() {
            self.change.as_ref()
        } else {
            None
        }
    }

    /// The node whose tables are dealt or rewritten.
    pub fn node(&self) -> NodeId
        ensures { result ≡ self.now.node }
    {
        self.node
    }

    /// Whether the tables are the whole pile that the node has by now.
    pub fn is_whole(&self, trie: &Trie) -> bool
        ensures { result ≡ is_whole trie.now.nodes self.now }
    {
        self.sources.len() == trie.pile(self.node).len()
    }

    /// The filters of the tables that a ready deal built for inner children, in the order in which the
    /// change names them. Takes no memory.
    pub fn into_filters(self) -> Vec<FilterPage>
        requires { is_filled self.stage ≡ true }
        ensures { result.items ≡ filters_in self self.stage }
    {
        self.filters
    }

    /// The extents that the job has reserved.
    pub fn reserved_numbers(&self) -> &[u32]
        ensures { result.now ≡ taken_in self.now.stage }
    {
        match &self.stage {
            Stage::Filling { numbers, .. } => numbers,
            Stage::Scanning(_) | Stage::Planned { .. } => &[],
        }
    }

    /// Gives back what the job reserved.
    pub fn abandon(self, extents: &mut Extents)
        requires taken { AllTaken extents.old (taken_in self.stage) }
        requires apart { IsTrue (all_distinct (taken_in self.stage)) }
        ensures free { (x : ℕ) → is_free extents.new x ≡ (is_free extents.old x
            || is_in x (taken_in self.stage)) }
        ensures extents { length extents.new ≡ length extents.old }
    {
        let Job { stage, .. } = self;
        if let Stage::Filling { numbers, .. } = stage {
            give_back(extents, &numbers);
        }
    }
}

impl Stage {
    /// All extents are filled.
    fn is_filled(&self) -> bool
        ensures { result ≡ is_filled (stage_in self.now) }
    {
        match self {
            Stage::Filling {
                numbers,
                filled,
                ..
            } => *filled as usize == numbers.len(),
            Stage::Scanning(_) | Stage::Planned { .. } => false,
        }
    }
}

/// A job at a node with tables, with nothing scanned.
fn begin(alloc: Global, trie: &Trie, node: NodeId) -> Result<Job, NoMemory>
    ensures { IfOk result (λ job. job ≡ begun trie.now.levels trie.now.nodes node) }
{
    Ok(Job {
        levels: trie.levels(),
        node,
        sources: Vec::from_slice(alloc, trie.pile(node))?,
        stage: Stage::Scanning(Found::nothing(alloc)),
        change: None,
        filters: Vec::new(alloc),
    })
}
