//! A page of filters, one for each column.

ghost use Rattle.std.specs.Prelude.{◌≡◌, ◌+◌, ◌*◌, ◌<◌, All, IfOk};
ghost use Rattle.lt_terms.specs.Bytes.{zero_block};
ghost use Rattle.lt_tables.specs.Filter.{covers_positions, AddsPositions};
ghost use Rattle.lt_item.specs.Parts.{IsInRange};

use super::bits::{is_set, set};
use lt_item::Parts;
use lt_page::{NoMemory, Page};
use std::alloc::Global;
use std::marker::Model;

/// How many bits a filter has.
const FILTER_BITS: usize = 512;

/// A page seen as 64 filters of 512 bits, one for each column. Contracts see the bytes of the page.
#[derive(Drop)]
pub struct FilterPage {
    page: Page,
}

impl Model for FilterPage {
    ghost use Rattle.std.specs.Prelude.{List, ℕ};

    ghost Value = { List ℕ };

    ghost view = { λ filters. filters.page };
}

impl FilterPage {
    /// Filters that cover nothing.
    pub fn new(alloc: Global) -> Result<FilterPage, NoMemory>
        ensures { IfOk result (λ filters. filters ≡ zero_block) }
    {
        let page = Page::new(alloc)?;
        Ok(FilterPage { page })
    }

    /// The filters that a page holds.
    pub fn from_page(page: Page) -> FilterPage
        ensures { result ≡ page }
    {
        FilterPage { page }
    }

    /// The page that holds the filters.
    pub fn page(&self) -> &Page
        ensures { result.now ≡ self.now }
    {
        &self.page
    }

    /// Sets the six positions in the filter of a column, and no other bit.
    pub fn add(&mut self, column: u8, parts: &Parts)
        requires column { column < 64 }
        requires parts { IsInRange parts.now }
        ensures { AddsPositions self.old self.new column parts.now.positions }
    {
        add_positions(&mut self.page, column, &parts.positions);
    }

    /// Whether all six positions are set in the filter of a column.
    pub fn covers(&self, column: u8, parts: &Parts) -> bool
        requires column { column < 64 }
        requires parts { IsInRange parts.now }
        ensures { result ≡ covers_positions self.now column parts.now.positions }
    {
        covers_at(&self.page, column, parts)
    }
}

/// Whether all six positions are set in the filter that stands at a place among the 64 of a page.
pub fn covers_at(page: &Page, index: u8, parts: &Parts) -> bool
    requires index { index < 64 }
    requires parts { IsInRange parts.now }
    ensures { result ≡ covers_positions page.now index parts.now.positions }
{
    covers_all(page, index, &parts.positions)
}

/// Whether all of these positions are set in a filter.
fn covers_all(page: &Page, index: u8, positions: &[u16]) -> bool
    requires index { index < 64 }
    requires positions { All (λ p. p < 512) positions.now }
    ensures { result ≡ covers_positions page.now index positions.now }
{
    positions
        .iter()
        .all(|position| is_set(page, bit_at(index, *position)))
}

/// Sets these positions in a filter.
fn add_positions(page: &mut Page, column: u8, positions: &[u16])
    requires column { column < 64 }
    requires positions { All (λ p. p < 512) positions.now }
    ensures { AddsPositions page.old page.new column positions.now }
{
    for position in positions {
        set(page, bit_at(column, *position));
    }
}

/// The bit of the page that is this position of a filter.
fn bit_at(filter: u8, position: u16) -> usize
    requires filter { filter < 64 }
    requires position { position < 512 }
    ensures bit { result ≡ 512 * filter + position }
    ensures within { result < 32768 }
{
    FILTER_BITS * usize::from(filter) + usize::from(position)
}
