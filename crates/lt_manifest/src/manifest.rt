//! The manifest in memory: its header and trie, and the area of the device that is current.

ghost use Rattle.std.specs.Prelude.{◌≡◌, ◌-◌, ◌^◌, ◌<◌, ◌≤◌, Ok, Err, IfOk, IsErrOf, OnOk, IsTrue};
ghost use Rattle.std.specs.Option.{ForSome};
ghost use Rattle.lt_device.specs.Calls.{FillsOnly, OnlyReads, OnlyWrites, TouchesOnly};
ghost use Rattle.lt_device.specs.Faults.{FaultBy, FaultIn};
ghost use Rattle.lt_device.specs.Moments.{ConfinedTo, UnsyncedIn, ShowsSameOutside, MayOnlyLeave};
ghost use Rattle.lt_format.specs.Layout.{is_geometry, blocks_needed};
ghost use Rattle.lt_format.specs.Snapshot.{extents_stand, snapshot_bytes, InManifest, manifest_in, may_commit};
ghost use Rattle.lt_format.specs.Snapshot.{after_commit};
ghost use Rattle.lt_node.specs.Changing.{change_of};
ghost use Rattle.lt_manifest.specs.Promise.{AnyMoment, Committed, InSnapshot, IsKept, IsOpened};
ghost use Rattle.lt_format.specs.Snapshot.{fresh};
ghost use Rattle.lt_manifest.specs.Written.{HasSelected, InSelected};

use crate::area::{fill_area, fill_selector, select_area, write_area};
use crate::snapshot::header::read_front;
use crate::snapshot::node::read_trie;
use crate::snapshot::reading::{fault_from, front_part, read_bytes};
use crate::snapshot::spelling::{snapshot_room, spell};
use lt_device::Device;
use lt_format::{Geometry, Header};
use lt_layout::{OpenFault, selected};
use lt_node::{Change, CommitFault, Trie};
use lt_page::Page;
use std::alloc::Global;
use std::marker::Model;

/// The manifest of a store.
#[derive(Drop)]
pub struct Manifest {
    geometry: Geometry,
    area: u8,
    header: Header,
    trie: Trie,
}

impl Model for Manifest {
    ghost use Rattle.std.specs.Prelude.{◌≡◌};
    ghost use Rattle.lt_format.specs.Snapshot.{Named};
    ghost use Rattle.lt_manifest.specs.Promise.{IsHeld, named_by};

    ghost Value = { Named };

    ghost view = { λ m. named_by m.geometry m.area m.header m.trie.nodes };

    ghost invariant = { λ m. IsHeld m.geometry m.area m.header m.trie };
}

impl Manifest {
    /// Writes the snapshot of a store without tables to area 0, closes the edit gates of that area and
    /// selects it. It does not sync.
    pub fn format<D: Device>(
        alloc: Global,
        device: &mut D,
        geometry: &Geometry,
        extents: u32,
    ) -> Result<(), CommitFault>
        requires valid { IsTrue (is_geometry geometry.now) }
        requires stands { IsTrue (extents_stand geometry.now (D.blocks device.old) extents) }
        ensures named { OnOk result (ForSome (D.state device.new).shown
            (λ image. manifest_in geometry.now image ≡ Ok (fresh geometry.now extents))) }
        ensures written { OnOk result (ForSome (D.state device.new).shown
            (HasSelected 0 (snapshot_bytes (fresh geometry.now extents).manifest))) }

        // Whatever it answers, it touches no other block and syncs nothing.
        ensures confined { ConfinedTo InManifest (D.state device.old) (D.state device.new) }
        ensures others { ShowsSameOutside InManifest (D.state device.old).shown
            (D.state device.new).shown }

        // Nor any block of area 1.
        ensures fills { FillsOnly D.Device (InSelected 0) (IsErrOf result CommitFault.Device)
            device.old device.new }
        ensures no_memory { IsErrOf result CommitFault.NoMemory → device.new ≡ device.old }
    {
        let header = Header {
            log_area: 0,
            extents,
            writes: 0,
        };
        let mut page = Page::new(alloc)?;
        let mut bytes = snapshot_room(alloc, 0)?;
        spell(&mut bytes, &header, &[]);
        fill_area(device, geometry, 0, &bytes, &mut page)?;
        fill_selector(&mut page, 0);
        Ok(device.write(1, &page)?)
    }

    /// Reads the manifest of the area that is current.
    ///
    /// `Damaged` is the block of the first field of the snapshot that does not stand.
    pub fn open<D: Device>(
        alloc: Global,
        device: &mut D,
        geometry: &Geometry,
    ) -> Result<Manifest, OpenFault>
        requires valid { IsTrue (is_geometry geometry.now) }
        requires room { blocks_needed geometry.now 0 ≤ D.blocks device.old }
        ensures read { IfOk result (λ manifest. ForSome (D.state device.old).shown
            (λ image. manifest_in geometry.now image ≡ Ok manifest)) }

        // Whatever the device tells.
        ensures stands { IfOk result (IsOpened geometry.now (D.blocks device.old)) }

        ensures damaged { FaultBy result OpenFault.Damaged (D.state device.old).shown
            (λ image b. manifest_in geometry.now image ≡ Err b) }
        ensures damaged_block { FaultIn result OpenFault.Damaged InSnapshot }
        ensures calls { OnlyReads D.Device 306 (IsErrOf result OpenFault.Device)
            device.old device.new }
    {
        let mut page = Page::new(alloc)?;
        device.read(1, &mut page)?;
        let area = selected(&page);
        let first = geometry.area(area);
        device.read(first, &mut page)?;
        let header = front_part(page.bytes(), 40);
        let Ok(front) = read_front(geometry, device.blocks(), header) else {
            return Err(OpenFault::Damaged(first));
        };
        let bytes = read_bytes(alloc, device, first, front.total as usize, &mut page)?;
        match read_trie(alloc, geometry, &front, &bytes) {
            Ok(trie) => Ok(Manifest {
                geometry: *geometry,
                area,
                header: front.header,
                trie,
            }),
            Err(fault) => Err(fault_from(first, fault)),
        }
    }

    pub fn geometry(&self) -> &Geometry
        ensures geometry { result.now ≡ self.now.geometry }
        ensures kept { IsKept self.now }
    {
        &self.geometry
    }

    /// The area that is current, 0 or 1.
    pub fn area(&self) -> u8
        ensures area { result ≡ self.now.area }
        ensures kept { IsKept self.now }
    {
        self.area
    }

    pub fn header(&self) -> Header
        ensures header { result ≡ self.now.manifest.header }
        ensures kept { IsKept self.now }
    {
        self.header
    }

    pub fn trie(&self) -> &Trie
        ensures nodes { result.now.nodes ≡ self.now.manifest.trie }
        ensures levels { result.now.levels ≡ self.now.geometry.levels }
        ensures kept { IsKept self.now }
    {
        &self.trie
    }

    /// Makes a change and a new header the store's.
    ///
    /// Memory is taken first: after `NoMemory` nothing was written, and the manifest is as before. After
    /// `Device` the store is opened again.
    pub fn commit<D: Device>(
        &mut self,
        alloc: Global,
        device: &mut D,
        change: &Change,
        header: &Header,
    ) -> Result<(), CommitFault>
        requires stands { IsTrue (extents_stand self.old.geometry
            (D.blocks device.old) self.old.manifest.header.extents) }
        requires may { IsTrue (may_commit self.old.geometry.levels self.old.manifest
            (change_of change.now) header.now) }

        ensures geometry { self.new.geometry ≡ self.old.geometry }
        ensures changed { OnOk result (self.new.manifest
            ≡ after_commit self.old.manifest (change_of change.now) header.now) }
        ensures area { OnOk result (self.new.area ≡ 1 - self.old.area) }

        // Each image since the start names the manifest as it was, or the new one.
        ensures any_moment { AnyMoment self.old
            (after_commit self.old.manifest (change_of change.now) header.now)
            (D.state device.old) (D.state device.new) }

        // After Ok only the latter.
        ensures committed { OnOk result
            (Committed self.old self.new (D.state device.old) (D.state device.new)) }
        ensures written { OnOk result (MayOnlyLeave
            (HasSelected self.new.area (snapshot_bytes self.new.manifest)) (D.state device.new)) }
        ensures sure { OnOk result (UnsyncedIn (λ _. ⊥) (D.state device.new)) }

        // Whatever it answers, it touches no other block, and none of the area that was current.
        ensures confined { ConfinedTo InManifest (D.state device.old) (D.state device.new) }
        ensures touches { TouchesOnly D.Device (InSelected (1 - self.old.area))
            device.old device.new }

        ensures no_memory { IsErrOf result CommitFault.NoMemory → device.new ≡ device.old }
        ensures unchanged { IsErrOf result CommitFault.NoMemory → self.new ≡ self.old }
        ensures calls { OnlyWrites D.Device (IsErrOf result CommitFault.Device)
            device.old device.new }
    {
        let mut page = Page::new(alloc)?;
        let mut bytes = snapshot_room(alloc, header.extents)?;
        self.trie.apply(alloc, change)?;
        self.header = kept(*header);
        spell(&mut bytes, &self.header, self.trie.nodes());
        let other = 1 - self.area;
        write_area(device, &self.geometry, other, &bytes, &mut page)?;
        select_area(device, other, &mut page)?;
        self.area = other;
        Ok(())
    }
}

/// The same header, whose number of writes is one of 64 bits.
fn kept(header: Header) -> Header
    ensures same { result ≡ header }
    ensures writes { result.writes < 2 ^ 64 }
{
    header
}
