//! One call of work: a job begins, makes a step, or is ready.

ghost use Rattle.std.specs.Prelude.{◌≡◌, ℕ, ◌≤◌, ◌++◌, Bool, List, true, false, Some, None, IfOk, OnErr};
ghost use Rattle.std.specs.Prelude.{IsErrOf, length};
ghost use Rattle.lt_terms.specs.Bytes.{Image};
ghost use Rattle.lt_alloc.specs.Extents.{AreTaken};
ghost use Rattle.lt_device.specs.Calls.{ReadsAndWrites};
ghost use Rattle.lt_format.specs.Layout.{blocks_needed};
ghost use Rattle.lt_format.specs.Snapshot.{Named};
ghost use Rattle.lt_format.specs.Trie.{named, node_at};
ghost use Rattle.lt_pace.specs.Candidates.{name_of};
ghost use Rattle.lt_compact.specs.Extents.{AllTaken};
ghost use Rattle.lt_compact.specs.Filling.{FillsWithin};
ghost use Rattle.lt_compact.specs.Jobs.{begun};
ghost use Rattle.lt_compact.specs.Steps.{InExtents};
ghost use Rattle.std.specs.Option.{ForSome};
ghost use Rattle.lt_work.specs.Advancing.{Begins, IsDamagedSource, Works, after_step, needs_more};
ghost use Rattle.lt_work.specs.Advancing.{next_wanted, tells_no_slack, will_step};
ghost use Rattle.lt_work.specs.Work.{IsTrueOn, SuitsTrie, reserved_by};

use crate::work::Work;
use lt_alloc::Extents;
use lt_compact::{Job, JobFault, Stepped};
use lt_device::Device;
use lt_format::{Geometry, NodeId};
use lt_node::Trie;
use lt_pace::{first_full, first_slack, is_full_at};
use lt_page::NoMemory;
use std::alloc::Global;

/// Which piles a job may begin at.
#[derive(Clone, Copy, Debug, PartialEq, Eq)]
pub enum Wanted {
    /// Full ones.
    Full,
    /// Full ones, and where none is left those of the last level that may have slack.
    Slack,
}

/// What a call of work did.
#[derive(Clone, Copy, Debug, PartialEq, Eq)]
pub enum Advanced {
    /// No job is in flight, and no pile is left that one is wanted at.
    Idle,
    /// A job began, or made a step, or was given up.
    More,
    /// The job in flight is ready: its change is to be committed.
    Ready,
}

impl Work {
    /// Makes one step of the job in flight, or begins one at the next pile that is wanted: the first full one that
    /// is not passed over; with `Slack`, where none is left, the first last-level one that is neither passed over
    /// nor known to have no slack. A job that needs more extents than are free is given up, and where its tables
    /// are its node's whole pile the node is passed over. A job at a pile that is not full is given up where its
    /// plan tells no slack, which is remembered. It reads at most 64 blocks.
    pub fn advance<D: Device>(
        &mut self,
        alloc: Global,
        device: &mut D,
        geometry: &Geometry,
        trie: &Trie,
        extents: &mut Extents,
        wanted: Wanted,
    ) -> Result<Advanced, JobFault>
        requires levels { trie.now.levels ≡ geometry.now.levels }
        requires suits { SuitsTrie geometry.now.levels trie.now.nodes extents.old self.old }
        requires taken { AllTaken extents.old (named trie.now.nodes) }
        requires within { blocks_needed geometry.now (length extents.old) ≤ D.blocks device.old }

        // What it answers, and what it leaves. After an `Err` neither work nor extents have changed.
        ensures works { IfOk result (Works wanted geometry.now (D.state device.old).shown
            (D.state device.new).shown trie.now.nodes extents.old extents.new self.old self.new) }
        ensures unchanged { OnErr result (self.new ≡ self.old) }
        ensures extents { OnErr result (extents.new ≡ extents.old) }

        // What suits and is true stays so, whatever it answers.
        ensures suits { SuitsTrie geometry.now.levels trie.now.nodes extents.new self.new }
        ensures in_use { (n : ℕ) → AreTaken n (named trie.now.nodes ++ reserved_by self.old) extents.old
            → AreTaken n (named trie.now.nodes ++ reserved_by self.new) extents.new }
        ensures keeps { (m : Named) (before image : Image) → m.geometry ≡ geometry.now
            → m.manifest.trie ≡ trie.now.nodes
            → AreTaken m.manifest.header.extents (named trie.now.nodes ++ reserved_by self.old) extents.old
            → (D.state device.old).shown ≡ Some before → (D.state device.new).shown ≡ Some image
            → IsTrueOn m before self.old → IsTrueOn m image self.new }

        // It touches no block but of the extents that the job in flight has reserved, and syncs nothing.
        // Where no step is made it leaves the device.
        ensures touches { FillsWithin (InExtents geometry.now (reserved_by self.old))
            (D.state device.old) (D.state device.new) }
        ensures quiet { will_step self.old.job ≡ false → device.new ≡ device.old }
        ensures damaged { (b : ℕ) → IsErrOf result (JobFault.Damaged b)
            → IsDamagedSource geometry.now (D.state device.old).shown self.old b }
        ensures calls { ReadsAndWrites D.Device 64 (IsErrOf result JobFault.Device)
            device.old device.new }
    {
        match &self.job {
            None => Ok(self.begin(alloc, trie, wanted)?),
            Some(job) if job.change().is_some() => Ok(Advanced::Ready),
            Some(_) => self.step_on(alloc, device, geometry, trie, extents),
        }
    }

    /// Begins a job at the next pile that is wanted.
    fn begin(&mut self, alloc: Global, trie: &Trie, wanted: Wanted) -> Result<Advanced, NoMemory>
        requires { self.old.job ≡ None }
        ensures idle { IfOk result (λ answer. answer ≡ Advanced.Idle
            → (next_wanted wanted trie.now.levels trie.now.nodes self.old ≡ None) × (self.new ≡ self.old)) }
        ensures more { IfOk result (λ answer. answer ≡ Advanced.More
            → Begins wanted trie.now.levels trie.now.nodes self.old self.new) }
        ensures either { IfOk result (λ answer. answer ≡ Advanced.Ready → ⊥) }
        ensures unchanged { OnErr result (self.new ≡ self.old) }
        ensures suits { (taken : List Bool) → AllTaken taken (named trie.now.nodes)
            → SuitsTrie trie.now.levels trie.now.nodes taken self.old
            → SuitsTrie trie.now.levels trie.now.nodes taken self.new }
    {
        // A trie lists each node once.
        prove!(trie.levels() <= 5);
        let Some(node) = self.next(trie, wanted) else {
            return Ok(Advanced::Idle);
        };
        self.job = Some(job_at(alloc, trie, node)?);
        Ok(Advanced::More)
    }

    /// The next pile that a job is wanted at.
    fn next(&self, trie: &Trie, wanted: Wanted) -> Option<NodeId>
        ensures { result ≡ name_of (next_wanted wanted trie.now.levels trie.now.nodes self.now) }
    {
        match (first_full(trie, &self.passed_over), wanted) {
            (Some(node), _) => Some(node),
            (None, Wanted::Full) => None,
            (None, Wanted::Slack) => first_slack(trie, &self.passed_over, &self.without_slack),
        }
    }

    /// Makes one step of the job in flight, which is not ready.
    fn step_on<D: Device>(
        &mut self,
        alloc: Global,
        device: &mut D,
        geometry: &Geometry,
        trie: &Trie,
        extents: &mut Extents,
    ) -> Result<Advanced, JobFault>
        requires steps { will_step self.old.job ≡ true }
        requires levels { trie.now.levels ≡ geometry.now.levels }
        requires suits { SuitsTrie geometry.now.levels trie.now.nodes extents.old self.old }
        requires within { blocks_needed geometry.now (length extents.old) ≤ D.blocks device.old }
        ensures works { (wanted : Wanted) → IfOk result (Works wanted geometry.now (D.state device.old).shown
            (D.state device.new).shown trie.now.nodes extents.old extents.new self.old self.new) }
        ensures unchanged { OnErr result (self.new ≡ self.old) }
        ensures extents { OnErr result (extents.new ≡ extents.old) }
        ensures suits { SuitsTrie geometry.now.levels trie.now.nodes extents.new self.new }
        ensures in_use { (n : ℕ) → AreTaken n (named trie.now.nodes ++ reserved_by self.old) extents.old
            → AreTaken n (named trie.now.nodes ++ reserved_by self.new) extents.new }
        ensures keeps { (m : Named) (before image : Image) → m.geometry ≡ geometry.now
            → m.manifest.trie ≡ trie.now.nodes
            → AreTaken m.manifest.header.extents (named trie.now.nodes ++ reserved_by self.old) extents.old
            → (D.state device.old).shown ≡ Some before → (D.state device.new).shown ≡ Some image
            → IsTrueOn m before self.old → IsTrueOn m image self.new }
        ensures touches { FillsWithin (InExtents geometry.now (reserved_by self.old))
            (D.state device.old) (D.state device.new) }
        ensures damaged { (b : ℕ) → IsErrOf result (JobFault.Damaged b)
            → IsDamagedSource geometry.now (D.state device.old).shown self.old b }
        ensures calls { ReadsAndWrites D.Device 64 (IsErrOf result JobFault.Device)
            device.old device.new }
    {
        // A trie lists each node once.
        prove!(trie.levels() <= 5);
        let Some(job) = &mut self.job else {
            unreachable!()
        };
        let stepped = job.step(alloc, device, geometry, trie, extents)?;
        self.judge(trie, extents.free(), stepped);
        Ok(Advanced::More)
    }

    /// Gives up the job in flight where the step that it made tells so.
    fn judge(&mut self, trie: &Trie, free: u32, stepped: Stepped)
        ensures { ForSome self.old.job (λ j.
            self.new ≡ after_step trie.now.levels trie.now.nodes free stepped j self.old) }
    {
        let Some(job) = &self.job else {
            return;
        };
        let node = job.node();
        if tells_no_slack(stepped) && !is_full_at(trie, node) {
            self.without_slack.mark(node);
            self.job = None;
        } else if needs_more(free, stepped) {
            if job.is_whole(trie) {
                self.passed_over.mark(node);
            }
            self.job = None;
        }
    }
}

/// A job at a node with tables.
fn job_at(alloc: Global, trie: &Trie, node: NodeId) -> Result<Job, NoMemory>
    requires { 1 ≤ length (node_at trie.now.nodes node).tables }
    ensures { IfOk result (λ job. job ≡ begun trie.now.levels trie.now.nodes node) }
{
    if u32::from(node.level) + 1 == u32::from(trie.levels()) {
        Job::rewrite(alloc, trie, node)
    } else {
        Job::deal(alloc, trie, node)
    }
}

/// Whether a step tells that its job needs more extents than are free.
fn needs_more(free: u32, stepped: Stepped) -> bool
    ensures { result ≡ needs_more free stepped }
{
    match stepped {
        Stepped::More | Stepped::Ready => false,
        Stepped::Planned { needed, .. } => free < needed,
        Stepped::Short(short) => free < short.needed,
    }
}

/// Whether a step tells that its job's pile has no slack.
fn tells_no_slack(stepped: Stepped) -> bool
    ensures { result ≡ tells_no_slack stepped }
{
    match stepped {
        Stepped::Planned { slack, .. } => !slack,
        Stepped::More | Stepped::Short(_) | Stepped::Ready => false,
    }
}
