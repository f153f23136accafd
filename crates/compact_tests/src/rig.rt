//! A job with what it works on.

ghost use Rattle.std.specs.Prelude.{◌≡◌, ◌<◌, ◌≤◌, [], All, IfOk, IsTrue, Ok, length};
ghost use Rattle.lt_alloc.specs.declared.extents.Short.{Short};
ghost use Rattle.lt_format.specs.Trie.{node_at};
ghost use Rattle.lt_compact.specs.Jobs.{begun, taken_in};

use lt_alloc::Extents;
use lt_compact::{Job, JobFault, Stepped};
use lt_device::{Device, MemDevice};
use lt_format::{Geometry, NodeId};
use lt_node::{Change, Trie};
use lt_page::{NoMemory, Page};
use std::alloc::Global;
use std::marker::Model;

/// Two levels and one log slot: extent x begins at block 872 + 65 x.
pub const GEOMETRY: Geometry = Geometry {
    levels: 2,
    slots: 1,
};

/// A job in flight in a trie, over a device. Those extents are taken that the trie names or the job reserved.
#[derive(Drop)]
pub struct Rig {
    device: MemDevice,
    trie: Trie,
    extents: Extents,
    job: Job,
}

/// What several steps answered.
#[derive(Clone, Copy, Debug)]
pub struct Run {
    /// How many steps were made that answered neither `Short` nor a fault.
    pub steps: u32,
    pub planned: Option<(u32, bool)>,
    pub last: Result<Stepped, JobFault>,
}

impl Model for Rig {
    ghost use Rattle.lt_compact.specs.Jobs.{JobView};
    ghost use Rattle.compact_tests.specs.Rigs.{MayStep};

    ghost Value = { JobView };

    ghost view = { λ rig. rig.job };

    ghost invariant = { λ rig. MayStep rig.trie rig.extents rig.device.shown rig.job };
}

impl Rig {
    /// Begins a job at a node of a trie of two levels, where so many extents may be taken. `None` where the
    /// node has no tables, or the device has no room.
    pub fn begin(
        alloc: Global,
        device: MemDevice,
        trie: Trie,
        node: NodeId,
        count: u32,
    ) -> Result<Option<Rig>, NoMemory> {
        let named = trie.referenced(alloc)?;
        let named = named.as_slice();
        let fits = is_below(named, count);
        let levels = trie.levels();
        if !fits || levels != 2 {
            return Ok(None);
        }
        let blocks = device.blocks();
        let needed = GEOMETRY.needed(count);
        let tables = trie.pile(node).len();
        if blocks < needed || tables < 1 {
            return Ok(None);
        }
        let extents = Extents::of(alloc, count, named)?;
        let job = job_at(alloc, &trie, node)?;
        Ok(Some(Rig {
            device,
            trie,
            extents,
            job,
        }))
    }

    /// Makes a step, where the job is not ready.
    pub fn step(&mut self, alloc: Global) -> Result<Stepped, JobFault>
        ensures waits { (short : Short) → result ≡ Ok (Stepped.Short short)
            → taken_in self.new.stage ≡ [] }
    {
        if self.job.change().is_some() {
            return Ok(Stepped::Ready);
        }
        self.job.step(
            alloc,
            &mut self.device,
            &GEOMETRY,
            &self.trie,
            &mut self.extents,
        )
    }

    /// Steps on until the job is ready, too few extents are free, or a device or a bucket failed. Where memory
    /// is wanting it takes the step again.
    pub fn run(&mut self, alloc: Global) -> Run {
        let mut run = Run {
            steps: 0,
            planned: None,
            last: Ok(Stepped::More),
        };
        for _ in 0..1000 {
            run.last = self.step(alloc);
            match run.last {
                Ok(Stepped::Short(_)) | Err(JobFault::Device) | Err(JobFault::Damaged(_)) => break,
                Err(JobFault::NoMemory) => {}
                Ok(stepped) => {
                    run.steps = run.steps.saturating_add(1);
                    match stepped {
                        Stepped::Planned { needed, slack } => run.planned = Some((needed, slack)),
                        Stepped::Ready => break,
                        _ => {}
                    }
                }
            }
        }
        run
    }

    /// Lets so many extents be taken, where the job waits for extents.
    pub fn widen(&mut self, alloc: Global, count: u32) -> Result<(), NoMemory> {
        // It has reserved none.
        let Ok(Stepped::Short(_)) = self.step(alloc) else {
            return Ok(());
        };
        let named = self.trie.referenced(alloc)?;
        let named = named.as_slice();
        let fits = is_below(named, count);
        let blocks = self.device.blocks();
        let needed = GEOMETRY.needed(count);
        if !fits || blocks < needed {
            return Ok(());
        }
        self.extents = Extents::of(alloc, count, named)?;
        Ok(())
    }

    /// Sets a block to a page, and answers what it was.
    pub fn patch(&mut self, alloc: Global, block: u64, page: &Page) -> Result<Page, NoMemory> {
        let mut before = Page::new(alloc)?;
        if self.device.is_synced() && block < self.device.blocks() {
            before.copy_from(self.device.page(block));
            self.device.patch(block, page);
        }
        Ok(before)
    }

    /// How many extents are free.
    pub fn free(&self) -> u32 {
        self.extents.free()
    }

    /// The change of a ready job.
    pub fn change(&self) -> Option<&Change> {
        self.job.change()
    }

    /// The device, and the trie after the change of a ready job.
    pub fn into_parts(self, alloc: Global) -> Result<(MemDevice, Trie), NoMemory> {
        let Rig {
            device,
            mut trie,
            job,
            ..
        } = self;
        if let Some(change) = job.change() {
            if trie.fits(change) {
                trie.apply(alloc, change)?;
            }
        }
        Ok((device, trie))
    }
}

/// A deal or a rewriting at a node with tables.
fn job_at(alloc: Global, trie: &Trie, node: NodeId) -> Result<Job, NoMemory>
    requires levels { trie.now.levels ≡ 2 }
    requires some { 1 ≤ length (node_at trie.now.nodes node).tables }
    ensures { IfOk result (λ job. job ≡ begun trie.now.levels trie.now.nodes node) }
{
    if node.level == 1 {
        Job::rewrite(alloc, trie, node)
    } else {
        Job::deal(alloc, trie, node)
    }
}

/// Whether all numbers are below a limit.
fn is_below(numbers: &[u32], limit: u32) -> bool
    ensures { IsTrue result → All (λ n. n < limit) numbers.now }
{
    numbers.iter().all(|number| *number < limit)
}
