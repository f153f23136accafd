//! Opening a session, and what it says at the end of input.

ghost use Rattle.std.specs.Option.{ForSome};
ghost use Rattle.std.specs.Prelude.{◌≡◌, ℕ, ◌+◌, ◌*◌, ◌≤◌, true, [], IfOk, IsErrOf};
ghost use Rattle.lt_device.specs.Calls.{OnlyReads};
ghost use Rattle.lt_language.specs.Machine.{State};
ghost use Rattle.lt_store.specs.Promise.{AtRest, StopsOpening};
ghost use Rattle.lt_store.specs.Open.{IsOpen, blocks_of, extents_of};
ghost use Rattle.lt_store.specs.Reading.{Reads};
ghost use Rattle.lt_serve.specs.Ends.{with_end};
ghost use Rattle.lt_serve.specs.Outcomes.{most_text};
ghost use Rattle.lt_serve.specs.View.{kept_in, store_in};

use crate::session::Session;
use lt_device::Device;
use lt_layout::OpenFault;
use lt_line::{Lines, Replies};
use lt_page::Page;
use lt_store::Store;
use std::alloc::Global;

impl Session {
    /// Opens the store of a device, with no line begun. It writes nothing.
    ///
    /// `Damaged` is the first block that does not stand, of the superblock, the manifest and the log.
    pub fn open<D: Device>(alloc: Global, device: &mut D) -> Result<Session, OpenFault>
        ensures up { IfOk result (λ session. session.is_up ≡ true) }
        ensures none { IfOk result (λ session. kept_in session ≡ []) }
        ensures room { IfOk result (λ session. blocks_of (store_in session) ≤ D.blocks device.new) }

        // On a device that tells its blocks the store is what they open as.
        ensures reads { IfOk result (λ session. ForSome (D.state device.old).shown
            (Reads (store_in session))) }

        // On a device at rest it is open for what the device stands for.
        ensures opened { IfOk result (λ session. (s : State) (r : AtRest s (D.state device.old))
            → IsOpen (store_in session) s (D.state device.new)
            × (extents_of (store_in session) ≡ r.named.manifest.header.extents)) }

        ensures damaged { (b : ℕ) → IsErrOf result (OpenFault.Damaged b)
            → StopsOpening (D.state device.old) b }
        ensures at_rest { (s : State) → AtRest s (D.state device.old) → (b : ℕ)
            → IsErrOf result (OpenFault.Damaged b) → ⊥ }
        // At most for the most slots and the most extents that there may be.
        ensures calls { OnlyReads D.Device (307 + 2 * 512 + 65536) (IsErrOf result OpenFault.Device)
            device.old device.new }
    {
        let store = Store::open(alloc, device)?;
        let lines = Lines::new(alloc)?;
        let value = Page::new(alloc)?;
        Ok(Session {
            store,
            lines,
            value,
            wrote: false,
            is_up: true,
        })
    }

    /// At the end of input: adds `BAD end` exactly where bytes stand after the last line feed.
    pub fn end(&mut self, out: &mut Replies)
        requires up { self.old.is_up ≡ true }
        requires room { most_text ≤ out.old.room }
        ensures end { out.new ≡ with_end (kept_in self.old) out.old }
        ensures same { self.new ≡ self.old }
    {
        if self.lines.has_rest() {
            out.add(b"BAD end\n");
        }
    }
}
