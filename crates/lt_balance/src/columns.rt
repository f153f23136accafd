//! The load, the mark and the sent cost of each column, kept as entries come in.

ghost use Rattle.std.specs.Prelude.{◌≡◌, ◌+◌, ◌<◌, ◌^◌, List, [], ◌∷◌, ◌++◌};
ghost use Rattle.lt_tables.specs.declared.Entry.{Entry};
ghost use Rattle.lt_balance.specs.Columns.{AreColumns, NoneAbove, column_of};
ghost use Rattle.lt_balance.specs.Entries.{AreEntries};

use lt_tables::Entry;

/// What the items of a bucket cost at most.
pub(crate) const CAPACITY: u64 = 4080;

/// How many columns a table has.
pub(crate) const COLUMNS: usize = 64;

/// What the entries so far make of one column.
#[derive(Clone, Copy, Debug, PartialEq, Eq)]
pub(crate) struct Column {
    /// What its entries cost.
    pub(crate) load: u64,
    /// The greatest suffix of an entry such that the entries of smaller suffix fit in a bucket.
    pub(crate) mark: u32,
    /// What the entries from the mark on cost.
    pub(crate) sent: u64,
}

impl Column {
    /// A column without entries.
    pub(crate) const EMPTY: Column = Column {
        load: 0,
        mark: 0,
        sent: 0,
    };

    /// The column with one more entry. No entry before has a greater suffix.
    pub(crate) fn with(self, entry: &Entry) -> Column
        requires load { self.load + entry.now.cost < 2 ^ 64 }
        requires sent { self.sent + entry.now.cost < 2 ^ 64 }
        ensures { (es : List Entry) → self ≡ column_of es entry.now.column → NoneAbove es entry.now.suffix
            → result ≡ column_of (es ++ entry.now ∷ []) entry.now.column }
    {
        let cost = u64::from(entry.cost);
        if self.load > CAPACITY {
            return Column {
                load: self.load + cost,
                mark: self.mark,
                sent: self.sent + cost,
            };
        }
        let sent_before = if entry.suffix == self.mark {
            self.sent
        } else {
            0
        };
        Column {
            load: self.load + cost,
            mark: entry.suffix,
            sent: sent_before + cost,
        }
    }
}

/// The columns of a list of entries.
pub(crate) fn columns_of(entries: &[Entry]) -> [Column; COLUMNS]
    requires { AreEntries entries.now }
    ensures { AreColumns entries.now result }
{
    let mut columns = [Column::EMPTY; COLUMNS];
    for entry in entries {
        let c = entry.column as usize;
        columns[c] = columns[c].with(entry);
    }
    columns
}
