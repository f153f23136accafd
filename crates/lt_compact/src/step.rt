//! The steps of a job.

ghost use Rattle.std.specs.Prelude.{◌≡◌, ℕ, ◌+◌, ◌<◌, ◌≤◌, ◌++◌, Bool, false, List, Option, Some};
ghost use Rattle.std.specs.Prelude.{IfOk, IfErr, OnErr, IsErrOf, IsTrue, length, vec_capacity, vec_len};
ghost use Rattle.lt_terms.specs.Bytes.{Image, is_in};
ghost use Rattle.lt_device.specs.Calls.{OnlyReads, ReadsAndWrites};
ghost use Rattle.lt_format.specs.Layout.{blocks_needed, extent_block};
ghost use Rattle.lt_format.specs.Snapshot.{Named};
ghost use Rattle.lt_format.specs.Trie as format;
ghost use Rattle.lt_compact.specs.Extents.{GoesWith};
ghost use Rattle.lt_compact.specs.Filling.{FillsWithin, MayFillNext};
ghost use Rattle.lt_compact.specs.Inside.{kept_of};
ghost use Rattle.lt_compact.specs.Jobs.{IsShaped, KeepsJob, is_filled};
ghost use Rattle.lt_compact.specs.Steps.{Advances, InExtents, IsDamaged, is_ready, made_by, next_extents};
ghost use Rattle.lt_compact.specs.Steps.{steps_made, turn_of};
ghost use Rattle.lt_format.specs.declared.geometry.Geometry.{Geometry};

use crate::faults::JobFault;
use crate::filling::fill;
use crate::job::{Job, Stage};
use crate::planning::{Plan, plan_lists};
use crate::taking::{Taken, take};
use lt_alloc::{Extents, Short};
use lt_bloom::FilterPage;
use lt_device::Device;
use lt_format::{Geometry, NodeId};
use lt_node::Trie;
use std::alloc::Global;
use std::mem;

/// What a step of a job did.
#[derive(Clone, Copy, Debug, PartialEq, Eq)]
pub enum Stepped {
    /// The job is not ready yet.
    More,
    /// All tables were scanned: so many extents are needed, and whether a rewriting finds slack.
    Planned { needed: u32, slack: bool },
    /// Fewer extents are free than are needed. Nothing has changed.
    Short(Short),
    /// All extents are filled.
    Ready,
}

/// What a job does next.
#[derive(Clone, Copy)]
enum Turn {
    Scan,
    Plan,
    Take,
    Fill,
}

impl Job {
    /// Scans one table, or plans, or takes the extents, or fills one of them: builds a table or writes a
    /// group. It answers `Ready` where no extent is left to fill: a job of s tables that needs n extents is
    /// ready at step s + 2 + n, where steps that answered `Short` or a fault are not counted.
    pub fn step<D: Device>(
        &mut self,
        alloc: Global,
        device: &mut D,
        geometry: &Geometry,
        trie: &Trie,
        extents: &mut Extents,
    ) -> Result<Stepped, JobFault>
        requires levels { trie.now.levels ≡ geometry.now.levels }
        requires not_ready { is_filled self.old.stage ≡ false }
        requires goes { GoesWith geometry.now.levels trie.now.nodes extents.old self.old }
        requires within { blocks_needed geometry.now (length extents.old) ≤ D.blocks device.old }

        // What it answers, and what it leaves. After an `Err` neither job nor extents have changed.
        ensures next { IfOk result (Advances geometry.now (D.state device.old).shown
            (D.state device.new).shown trie.now.nodes extents.old extents.new self.old self.new) }
        // How many steps it made, and whether it is ready.
        ensures made { IfOk result (λ stepped.
            (steps_made self.new ≡ steps_made self.old + made_by stepped)
            × (is_filled self.new.stage ≡ is_ready stepped)) }
        ensures unchanged { OnErr result (self.new ≡ self.old) }
        ensures extents { OnErr result (extents.new ≡ extents.old) }

        // What is true of a job stays true, whatever it answers.
        ensures goes { GoesWith geometry.now.levels trie.now.nodes extents.new self.new }
        ensures keeps { (m : Named) (before image : Image) → m.geometry ≡ geometry.now
            → m.manifest.trie ≡ trie.now.nodes → (D.state device.old).shown ≡ Some before
            → (D.state device.new).shown ≡ Some image → KeepsJob m before self.old
            → KeepsJob m image self.new }
        ensures count { length extents.new ≡ length extents.old }

        // It touches no block but of the extent that it fills, and syncs nothing.
        ensures touches { FillsWithin (InExtents geometry.now (next_extents self.old.stage))
            (D.state device.old) (D.state device.new) }
        ensures damaged { (b : ℕ) → IsErrOf result (JobFault.Damaged b)
            → IsDamaged geometry.now (D.state device.old).shown self.old.sources b }
        ensures calls { ReadsAndWrites D.Device 64 (IsErrOf result JobFault.Device)
            device.old device.new }
    {
        match self.turn() {
            Turn::Scan => self.scan_table(alloc, device, geometry),
            Turn::Plan => self.plan_shares(alloc, trie),
            Turn::Take => self.take_extents(alloc, extents),
            Turn::Fill => self.fill_extent(alloc, device, geometry),
        }
    }

    /// What the job does next.
    fn turn(&self) -> Turn
        ensures { result ≡ turn_of self.now }
    {
        match &self.stage {
            Stage::Scanning(found) => {
                if (found.scanned as usize) < self.sources.len() {
                    Turn::Scan
                } else {
                    Turn::Plan
                }
            }
            Stage::Planned { .. } => Turn::Take,
            Stage::Filling { .. } => Turn::Fill,
        }
    }

    /// Scans the next table.
    fn scan_table<D: Device>(
        &mut self,
        alloc: Global,
        device: &mut D,
        geometry: &Geometry,
    ) -> Result<Stepped, JobFault>
        requires turn { turn_of self.old ≡ Turn.Scan }
        requires within { (x : ℕ) → IsTrue (is_in x self.old.sources)
            → extent_block geometry.now x + 65 ≤ D.blocks device.old }
        ensures next { IfOk result (λ stepped. (nodes : format.Trie) (taken : List Bool)
            → Advances geometry.now (D.state device.old).shown (D.state device.new).shown nodes
            taken taken self.old self.new stepped) }
        ensures unchanged { OnErr result (self.new ≡ self.old) }
        ensures damaged { (b : ℕ) → IsErrOf result (JobFault.Damaged b)
            → IsDamaged geometry.now (D.state device.old).shown self.old.sources b }
        ensures calls { OnlyReads D.Device 64 (IsErrOf result JobFault.Device)
            device.old device.new }
    {
        let Stage::Scanning(found) = &mut self.stage else {
            unreachable!()
        };
        let number = self.sources[found.scanned as usize];
        found.scan(alloc, device, geometry.extent(number))?;
        Ok(Stepped::More)
    }

    /// Shares out what was found.
    fn plan_shares(&mut self, alloc: Global, trie: &Trie) -> Result<Stepped, JobFault>
        requires turn { turn_of self.old ≡ Turn.Plan }
        requires shaped { IsShaped trie.now.levels trie.now.nodes self.old }
        ensures next { IfOk result (λ stepped. (g : Geometry) (shown : Option Image)
            (taken : List Bool)
            → Advances g shown shown trie.now.nodes taken taken self.old self.new stepped) }
        ensures unchanged { OnErr result (self.new ≡ self.old) }
        ensures memory { IfErr result (λ fault. fault ≡ JobFault.NoMemory) }
    {
        // A node with tables is one of the trie's, which has at most five levels.
        prove!(trie.levels() <= 5);
        let Stage::Scanning(found) = &mut self.stage else {
            unreachable!()
        };
        let Plan {
            shares,
            needed,
            slack,
        } = plan_lists(alloc, trie, self.node, &mut found.lists, &mut found.loose)?;
        self.stage = Stage::Planned { shares, needed };
        Ok(Stepped::Planned { needed, slack })
    }

    /// Takes the extents that the shares need.
    fn take_extents(&mut self, alloc: Global, extents: &mut Extents) -> Result<Stepped, JobFault>
        requires turn { turn_of self.old ≡ Turn.Take }
        ensures next { IfOk result (λ stepped. (g : Geometry) (shown : Option Image)
            (nodes : format.Trie) → Advances g shown shown nodes extents.old extents.new self.old self.new stepped) }
        ensures unchanged { OnErr result (self.new ≡ self.old) }
        ensures extents { OnErr result (extents.new ≡ extents.old) }
        ensures memory { IfErr result (λ fault. fault ≡ JobFault.NoMemory) }
    {
        let Stage::Planned { shares, needed } = &mut self.stage else {
            unreachable!()
        };
        let needed = *needed;
        let free = extents.free();
        if free < needed {
            return Ok(Stepped::Short(Short { needed, free }));
        }
        let dropped = self.sources.len() as u32;
        let Taken { numbers, change } = take(
            alloc,
            extents,
            needed,
            self.levels,
            self.node,
            dropped,
            shares,
        )?;
        let shares = mem::replace(shares, Vec::new(alloc));
        self.change = Some(change);
        self.stage = Stage::Filling {
            shares,
            numbers,
            filled: 0,
        };
        Ok(if needed == 0 {
            Stepped::Ready
        } else {
            Stepped::More
        })
    }

    /// Fills the next extent.
    fn fill_extent<D: Device>(
        &mut self,
        alloc: Global,
        device: &mut D,
        geometry: &Geometry,
    ) -> Result<Stepped, JobFault>
        requires turn { turn_of self.old ≡ Turn.Fill }
        requires levels { self.old.levels ≡ geometry.now.levels }
        requires next { MayFillNext geometry.now (D.blocks device.old) self.old.stage }
        ensures next { IfOk result (λ stepped. (nodes : format.Trie) (taken : List Bool)
            → Advances geometry.now (D.state device.old).shown (D.state device.new).shown nodes
            taken taken self.old self.new stepped) }
        ensures unchanged { OnErr result (self.new ≡ self.old) }
        ensures touches { FillsWithin (InExtents geometry.now (next_extents self.old.stage))
            (D.state device.old) (D.state device.new) }
        ensures only { (b : ℕ) → IsErrOf result (JobFault.Damaged b) → ⊥ }
        ensures calls { ReadsAndWrites D.Device 64 (IsErrOf result JobFault.Device)
            device.old device.new }
    {
        let Stage::Filling {
            shares,
            numbers,
            filled,
        } = &mut self.stage
        else {
            unreachable!()
        };
        self.filters.reserve(1)?;
        let built = fill(alloc, device, geometry, shares, numbers, *filled)?;
        *filled += 1;
        keep(&mut self.filters, self.levels, self.node, built);
        Ok(if *filled as usize == numbers.len() {
            Stepped::Ready
        } else {
            Stepped::More
        })
    }
}

/// Keeps the filters of a table that was built for an inner child. There is room.
fn keep(filters: &mut Vec<FilterPage>, levels: u8, node: NodeId, built: Option<FilterPage>)
    requires { vec_len filters.old < vec_capacity filters.old }
    ensures { filters.new.items ≡ filters.old.items ++ kept_of levels node built }
{
    let level = node.level as u32;
    if level + 1 == levels as u32 || level + 2 == levels as u32 {
        return;
    }
    if let Some(page) = built {
        filters.push_reserved(page);
    }
}
