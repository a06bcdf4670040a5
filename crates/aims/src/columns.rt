// Columns: the number of sources of each object lies within the other diagram's limits.
ghost use Rattle.worlds.specs.Kept.{ColumnsKept};
ghost use Rattle.aims.specs.Columns.{ColumnKept, LeastKept, MostKept};
ghost use Rattle.aims.specs.Finds.{Finds};

use crate::search::Search;
use worlds::{Column, Lines, Site};

impl Search<'_> {
    // An object with fewer sources.
    fn find_few(&self, column: &Column) -> Option<Site>
        ensures { Finds self.now (LeastKept column.now.slot column.now.to column.now.from column.now.low) result }
    {
        if column.low == 0 {
            return None;
        }
        if 32 <= column.slot {
            return self.ask_types(column.to);
        }
        self.ask_columns(column.slot, column.to, column.from, 0, column.low - 1)
    }

    // An object with more sources.
    fn find_many(&self, column: &Column) -> Option<Site>
        ensures { Finds self.now (MostKept column.now.slot column.now.to column.now.from column.now.high) result }
    {
        if 8 <= column.high {
            return None;
        }
        if 32 <= column.slot {
            return None;
        }
        self.ask_columns(column.slot, column.to, column.from, column.high + 1, 8)
    }

    // An object whose sources the column does not allow.
    fn find_column(&self, column: &Column) -> Option<Site>
        ensures { Finds self.now (ColumnKept column.now) result }
    {
        if let Some(site) = self.find_few(column) {
            return Some(site);
        }
        self.find_many(column)
    }

    // An object whose sources the other diagram does not allow.
    pub fn find_columns(&self, others: &Lines) -> Option<Site>
        ensures { Finds self.now (ColumnsKept others.now) result }
    {
        (0..16).find_map(|j| self.find_column(&others.columns[j]))
    }
}
