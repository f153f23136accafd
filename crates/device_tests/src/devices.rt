ghost use Rattle.std.specs.Prelude.{◌≡◌, ◌<◌};
ghost use Rattle.lt_device.specs.State.{tells_nothing};
ghost use Rattle.lt_device.specs.Moments.{ConfinedTo};

use lt_device::{Device, MemDevice, Pick, Steady};
use lt_page::{Failed, NoMemory, Page};
use std::alloc::Global;

fn page_of(alloc: Global, byte: u8) -> Result<Page, NoMemory> {
    let mut page = Page::new(alloc)?;
    page.fill_from(0, &[byte; Page::LEN]);
    Ok(page)
}

// The next three show a device as its trait does.

fn read<D: Device>(device: &mut D, block: u64, into: &mut Page) -> Result<(), Failed>
    requires { block < D.blocks device.old }
    ensures { D.blocks device.new ≡ D.blocks device.old }
{
    device.read(block, into)
}

fn write<D: Device>(device: &mut D, block: u64, from: &Page) -> Result<(), Failed>
    requires { block < D.blocks device.old }
    ensures { D.blocks device.new ≡ D.blocks device.old }
{
    device.write(block, from)
}

fn sync<D: Device>(device: &mut D) -> Result<(), Failed>
    ensures { D.blocks device.new ≡ D.blocks device.old }
{
    device.sync()
}

#[test]
fn a_steady_device_keeps_what_is_written(rt: HostRuntime) -> Result<(), NoMemory> {
    let mut device = Steady::new(rt.alloc(), 2)?;
    let mut page = page_of(rt.alloc(), 7)?;
    assert_eq!(rt; device.blocks(), 2);
    assert_eq!(rt; read(&mut device, 1, &mut page), Ok(()));
    assert!(rt; page.is_zero());
    assert_eq!(rt; write(&mut device, 1, &page_of(rt.alloc(), 1)?), Ok(()));
    assert_eq!(rt; sync(&mut device), Ok(()));
    assert_eq!(rt; read(&mut device, 1, &mut page), Ok(()));
    assert_eq!(rt; page.byte(4095), 1);
    assert_eq!(rt; device.reads(), 2);
    Ok(())
}

#[test]
fn calls_fail_that_are_listed_or_past_the_history_or_stopped(
    rt: HostRuntime,
) -> Result<(), NoMemory> {
    let mut device = MemDevice::new(rt.alloc(), 1, 3, vec![in rt.alloc(); 1]?, Some(6))?;
    let mut page = page_of(rt.alloc(), 1)?;
    assert_eq!(rt; write(&mut device, 0, &page), Ok(()));
    assert_eq!(rt; write(&mut device, 0, &page), Err(Failed), "listed");
    assert_eq!(rt; sync(&mut device), Ok(()));
    assert_eq!(rt; read(&mut device, 0, &mut page), Ok(()));
    assert_eq!(rt;
        write(&mut device, 0, &page),
        Err(Failed),
        "past the history"
    );
    assert_eq!(rt; sync(&mut device), Err(Failed), "past the history");
    assert_eq!(rt; read(&mut device, 0, &mut page), Err(Failed), "stopped");
    assert_eq!(rt;
        (device.calls(), device.faults(), device.reads()),
        (7, 4, 1)
    );
    assert!(rt; !device.is_synced());
    Ok(())
}

#[test]
fn a_crash_follows_the_picks(rt: HostRuntime) -> Result<(), NoMemory> {
    let mut device = MemDevice::new(rt.alloc(), 4, 9, vec![in rt.alloc(); 4]?, None)?;
    assert_eq!(rt; write(&mut device, 0, &page_of(rt.alloc(), 1)?), Ok(()));
    assert_eq!(rt; sync(&mut device), Ok(()));
    assert_eq!(rt; write(&mut device, 0, &page_of(rt.alloc(), 2)?), Ok(()));
    assert_eq!(rt; write(&mut device, 3, &page_of(rt.alloc(), 3)?), Ok(()));
    assert_eq!(rt;
        write(&mut device, 2, &page_of(rt.alloc(), 4)?),
        Err(Failed)
    );
    let rows: [(&[Pick], [u8; 4]); 4] = [
        (&[], [1, 0, 0, 0]),
        (&[Pick::Written, Pick::Stable], [2, 0, 0, 0]),
        (
            &[Pick::Stable, Pick::Written, Pick::Written, Pick::Filled(8)],
            [1, 0, 4, 3],
        ),
        (
            &[Pick::Filled(6), Pick::Stable, Pick::Filled(7)],
            [6, 0, 0, 7],
        ),
    ];
    for (picks, want) in &rows {
        let left = device.crash(rt.alloc(), picks, 9, Vec::new(rt.alloc()), None)?;
        assert!(rt; left.is_synced());
        assert_eq!(rt; (left.calls(), left.faults(), left.reads()), (0, 0, 0));
        for block in 0..4 {
            assert_eq!(rt; left.page(block as u64).byte(4095), want[block]);
        }
    }
    Ok(())
}

#[test]
fn a_patch_is_stable_and_empties_the_history(rt: HostRuntime) -> Result<(), NoMemory> {
    let mut device = MemDevice::new(rt.alloc(), 1, 2, Vec::new(rt.alloc()), None)?;
    assert_eq!(rt; write(&mut device, 0, &page_of(rt.alloc(), 1)?), Ok(()));
    assert_eq!(rt; sync(&mut device), Ok(()));
    assert!(rt; device.is_synced());
    device.patch(0, &page_of(rt.alloc(), 5)?);
    assert_eq!(rt; device.page(0).byte(0), 5);
    assert_eq!(rt; write(&mut device, 0, &page_of(rt.alloc(), 6)?), Ok(()));
    let left = device.crash(rt.alloc(), &[], 0, Vec::new(rt.alloc()), None)?;
    assert_eq!(rt; left.page(0).byte(0), 5);
    Ok(())
}

/// A device that tells nothing, and cannot be written.
#[derive(Drop)]
struct Silent {
    blocks: u64,
    reads: u64,
    faults: u64,
}

impl Device for Silent {
    ghost blocks = { λ device. device.blocks };

    ghost reads = { λ device. device.reads };

    ghost faults = { λ device. device.faults };

    ghost state = { λ _. tells_nothing };

    fn blocks(&self) -> u64 {
        self.blocks
    }

    fn reads(&self) -> u64 {
        self.reads
    }

    fn read(&mut self, _block: u64, into: &mut Page) -> Result<(), Failed> {
        into.clear();
        self.reads = self.reads.saturating_add(1);
        Ok(())
    }

    fn write(&mut self, _block: u64, _from: &Page) -> Result<(), Failed> {
        self.faults = self.faults.saturating_add(1);
        Err(Failed)
    }

    fn sync(&mut self) -> Result<(), Failed> {
        Ok(())
    }
}

/// Writes a block and syncs.
fn put<D: Device>(device: &mut D, block: u64, page: &Page) -> Result<(), Failed>
    requires { block < D.blocks device.old }
    ensures confined { ConfinedTo (λ k. k ≡ block) (D.state device.old) (D.state device.new) }
{
    device.write(block, page)?;
    device.sync()
}

#[test]
fn any_device_is_written_through_the_trait(rt: HostRuntime) -> Result<(), NoMemory> {
    let page = page_of(rt.alloc(), 9)?;
    let mut silent = Silent {
        blocks: 1,
        reads: 0,
        faults: 0,
    };
    assert_eq!(rt; put(&mut silent, 0, &page), Err(Failed));
    let mut steady = Steady::new(rt.alloc(), 1)?;
    assert_eq!(rt; put(&mut steady, 0, &page), Ok(()));
    let mut device = MemDevice::new(rt.alloc(), 1, 2, Vec::new(rt.alloc()), None)?;
    assert_eq!(rt; put(&mut device, 0, &page), Ok(()));
    Ok(())
}
