//! Looking a key up in a table.

ghost use Rattle.std.specs.Prelude.{◌≡◌, ℕ, ◌+◌, ◌<◌, ◌≤◌, List, Some, None, Ok, MatchResult, IfOk, IfErr};
ghost use Rattle.std.specs.Prelude.{IsErr, IsErrOf, IfSome, is_some};
ghost use Rattle.std.specs.Option.{ForSome, option_map};
ghost use Rattle.lt_terms.specs.Bytes.{Image, block_at};
ghost use Rattle.lt_terms.specs.Hashes.{home_column};
ghost use Rattle.lt_device.specs.Calls.{OnlyReads};
ghost use Rattle.lt_device.specs.Reads.{CountsAtMost};
ghost use Rattle.lt_terms.specs.Items as terms;
ghost use Rattle.lt_item.specs.Views.{item_of};
ghost use Rattle.lt_tables.specs.Bucket.{bucket_of, look_on, sent_to};
ghost use Rattle.lt_tables.specs.Table.{newest_of, blocks_from, IsPlaced};
ghost use Rattle.lt_bucket.specs.Looks.{look_of};
ghost use Rattle.lt_item.specs.Parts.{parts_of};
ghost use Rattle.lt_htable.specs.Reading.{AnswersLook, IsSought, at_last, target_of};

use super::extent::block_in;
use super::faults::LookFault;
use lt_bucket::{BucketView, Look, Sends};
use lt_device::Device;
use lt_item::{ItemView, Parts};
use lt_page::Page;

/// The item of a key in the table whose extent begins at block `first`. It reads the bucket of the
/// key's home column and, where that says that the key was sent, the bucket of the target: at most two
/// blocks. `None` exactly where neither holds the key.
pub fn look<'p, D: Device>(
    device: &mut D,
    first: u64,
    key: &[u8],
    parts: &Parts,
    page: &'p mut Page,
) -> Result<Option<ItemView<'p>>, LookFault>
    requires within { first + 65 ≤ D.blocks device.old }
    requires parts { parts.now ≡ parts_of key.now }
    ensures answer { AnswersLook (D.state device.old).shown first key.now result }

    // On the table of some items it is theirs, and no block is damaged.
    ensures placed { (image : Image) (items : List terms.Item) → (D.state device.old).shown ≡ Some image
        → IsPlaced items (blocks_from image first)
        → MatchResult result (λ found. option_map item_of found ≡ newest_of key.now items)
        (λ fault. fault ≡ LookFault.Device) }

    ensures calls { OnlyReads D.Device 2 (IsErrOf result LookFault.Device) device.old device.new }
    // One read where the home bucket does not send the key.
    ensures once { (image : Image) → (D.state device.old).shown ≡ Some image
        → target_of (look_on (block_at image (first + home_column key.now)) key.now) ≡ None
        → CountsAtMost 1 (D.reads device.old) (D.reads device.new) }
{
    let sought = seek(device, first, key, parts, page)?;
    if !sought.spells {
        return Err(LookFault::Damaged(sought.block));
    }
    Ok(found(BucketView::known(page).find(key, parts)))
}

fn found<'a>(look: Look<'a>) -> Option<ItemView<'a>>
    ensures { (block : ℕ) → at_last block (Some (look_of look.entry)) ≡ Ok (option_map item_of result) }
{
    match look {
        Look::Here(item) => Some(item),
        _ => None,
    }
}

/// A block that was read, and whether its page spells a bucket.
#[derive(Clone, Copy)]
struct Sought {
    block: u64,
    spells: bool,
}

/// Reads the bucket that answers on a key onto the page: that of the home column or, where this says
/// that the key was sent, of the target. It decodes each page that it reads, once.
fn seek<D: Device>(
    device: &mut D,
    first: u64,
    key: &[u8],
    parts: &Parts,
    page: &mut Page,
) -> Result<Sought, LookFault>
    requires within { first + 65 ≤ D.blocks device.old }
    requires parts { parts.now ≡ parts_of key.now }
    ensures sought { IfOk result (λ sought.
        IsSought (D.state device.old).shown first key.now sought.block page.new) }
    ensures spells { IfOk result (λ sought. sought.spells ≡ is_some (bucket_of page.new)) }
    ensures only_device { IfErr result (λ fault. fault ≡ LookFault.Device) }
    ensures calls { OnlyReads D.Device 2 (IsErr result) device.old device.new }
    ensures once { (image : Image) → (D.state device.old).shown ≡ Some image
        → target_of (look_on (block_at image (first + home_column key.now)) key.now) ≡ None
        → CountsAtMost 1 (D.reads device.old) (D.reads device.new) }
{
    let home = block_in(device, first, parts.column);
    device.read(home, page)?;
    match target(page, key, parts) {
        None => Ok(Sought {
            block: home,
            spells: false,
        }),
        Some(None) => Ok(Sought {
            block: home,
            spells: true,
        }),
        Some(Some(target)) => {
            let block = block_in(device, first, target);
            device.read(block, page)?;
            let spells = BucketView::of(page).is_some();
            Ok(Sought { block, spells })
        }
    }
}

/// The column that a key was sent to, where the page says so. `None` where it spells no bucket. The
/// key is searched for only where it may have been sent.
fn target(page: &Page, key: &[u8], parts: &Parts) -> Option<Option<u8>>
    requires { parts.now ≡ parts_of key.now }
    ensures spelled { is_some result ≡ is_some (bucket_of page.now) }
    ensures target { IfSome result (λ target. target ≡ target_of (look_on page.now key.now)) }
    ensures column { IfSome result (λ target. ForSome target (λ column. column < 64)) }
{
    let bucket = BucketView::of(page)?;
    if !is_sent(bucket.sends(), parts.suffix) {
        return Some(None);
    }
    match bucket.find(key, parts) {
        Look::Moved(target) => Some(Some(target)),
        _ => Some(None),
    }
}

/// Whether keys of this suffix are sent.
fn is_sent(sends: Option<Sends>, suffix: u32) -> bool
    ensures { result ≡ is_some (target_of (Some (sent_to sends suffix))) }
{
    match sends {
        Some(sends) => sends.mark <= suffix,
        None => false,
    }
}
