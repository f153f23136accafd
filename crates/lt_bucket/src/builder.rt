//! A bucket as it is written to its page.

ghost use Rattle.std.specs.Prelude.{◌≡◌, ◌+◌, ◌^◌, ◌<◌, ◌≤◌, ◌∷◌, [], ◌++◌, Some, IsTrue};
ghost use Rattle.std.specs.Option.{ForSome};
ghost use Rattle.lt_terms.specs.Bytes.{IsBlock, zeros};
ghost use Rattle.lt_terms.specs.Items.{is_valid, item_cost, total_cost};
ghost use Rattle.lt_item.specs.Views.{item_of, item_written};
ghost use Rattle.lt_tables.specs.Bucket.{sends_bytes, bucket_page_1, capacity, bucket_of};
ghost use Rattle.lt_bucket.specs.Building.{header_of, IsSpelled};

use lt_item::{ItemView, item_header};
use lt_page::Page;
use lt_tables::Sends;

/// Writes the spelling of an item on a page from `at` on, leaves all else, and answers the place
/// after it.
pub fn put_item(page: &mut Page, at: usize, item: &ItemView<'_>) -> usize
    requires valid { IsTrue (is_valid (item_of item.now)) }
    requires room { at + item_cost (item_of item.now) ≤ 4096 }
    ensures written { page.new ≡ item_written page.old at (item_of item.now) }
    ensures after { result ≡ at + item_cost (item_of item.now) }
    ensures was_block { IsBlock page.old }
    ensures block { IsBlock page.new }
{
    prove!(at < page.bytes().len());
    let key_at = at + 4;
    let value_at = key_at + item.key.len();
    page.fill_from(at, &item_header(item));
    page.fill_from(key_at, item.key);
    page.fill_from(value_at, item.value);
    value_at + item.value.len()
}

/// Writes a bucket to a page, item by item. The page holds any bytes until it is finished.
pub struct BucketBuilder<'a> {
    page: &'a mut Page,
    count: u16,
    used: u16,
    ghost spelled: { IsSpelled page.now count used },
}

impl<'a> BucketBuilder<'a> {
    ghost use Rattle.lt_bucket.specs.Added.{added};

    /// Starts a bucket with no items on a page.
    pub fn start(page: &'a mut Page) -> BucketBuilder<'a>
        ensures empty { added result ≡ [] }
        ensures same_page { result.page.ghost_name ≡ page.entry.ghost_name }
    {
        BucketBuilder {
            page,
            count: 0,
            used: 0,
        }
    }

    /// Adds an item behind the others.
    pub fn add(&mut self, item: &ItemView<'_>)
        requires valid { IsTrue (is_valid (item_of item.now)) }
        requires fits { total_cost (added self.old) + item_cost (item_of item.now) ≤ capacity }
        ensures added { added self.new ≡ added self.old ++ item_of item.now ∷ [] }
        ensures same_page { self.new.page.ghost_name ≡ self.old.page.ghost_name }
    {
        let end = put_item(self.page, 16 + self.used as usize, item);
        self.used = (end - 16) as u16;
        self.count += 1;
    }

    /// Finishes the bucket, which sends so. The page then is the one that spells the items that were
    /// added, in their order.
    pub fn finish(self, sends: Option<Sends>)
        requires { ForSome sends (λ sends. sends.target < 64) }
        ensures page { self.exit.0.now ≡ bucket_page_1 (record { sends = sends; items = added self.entry }) }
        ensures bucket { bucket_of self.exit.0.now ≡ Some (record { sends = sends; items = added self.entry }) }
        ensures block { IsBlock self.exit.0.now }
    {
        let BucketBuilder { page, count, used } = self;
        let end = 16 + used as usize;
        page.fill_from(0, &header(count, used, sends));
        page.fill_from(end, zeros(Page::LEN - end));
    }
}

// What the rest of a page is filled with.
static ZEROS: [u8; 4080] = [0; 4080];

#[tactic(auto, unfolding(lt_terms::specs::Bytes::zeros))]
fn header(count: u16, used: u16, sends: Option<Sends>) -> [u8; 16]
    ensures bytes { result ≡ header_of count used sends }
    ensures mark { ForSome sends (λ sends. sends.mark < 2 ^ 32) }
{
    let count = count.to_be_bytes();
    let used = used.to_be_bytes();
    let sends = sends_bytes(sends);
    [
        count[0], count[1], used[0], used[1], sends[0], sends[1], sends[2], sends[3], sends[4],
        sends[5], 1, 0, 0, 0, 0, 0,
    ]
}

#[tactic(auto, unfolding(lt_terms::specs::Bytes::zeros))]
fn sends_bytes(sends: Option<Sends>) -> [u8; 6]
    ensures bytes { result ≡ sends_bytes sends }
    ensures mark { ForSome sends (λ sends. sends.mark < 2 ^ 32) }
{
    match sends {
        None => [0; 6],
        Some(Sends { target, mark }) => {
            let mark = mark.to_be_bytes();
            [1, target, mark[0], mark[1], mark[2], mark[3]]
        }
    }
}

fn zeros(len: usize) -> &'static [u8]
    requires { len ≤ 4080 }
    ensures { result.now ≡ zeros len }
{
    ZEROS.split_at(len).0
}
