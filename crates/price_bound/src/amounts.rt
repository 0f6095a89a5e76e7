//! Tables of amounts by row and column.

ghost use Rattle.std.specs.Prelude.{◌≡◌, ◌<◌, [], map, suc, length, get_or, set, replicate, pos, IfOk};
ghost use Rattle.inventory.specs.CountTable.{changed_at, changed_in};
ghost use Rattle.timetable.specs.Compositions.{compositions_of};
ghost use Rattle.price_bound.specs.CompositionTrees.{AreTrains};
ghost use Rattle.price_bound.specs.Credits.{AreByType, AreSumsOf, HasSumRoom, IsRowSummed, put_in};
ghost use Rattle.price_bound.specs.PriceTables.{cleared_table};
ghost use Rattle.price_bound.specs.YardTables.{column_of, later_sums};

use crate::credits::{UnitPrices, put_sums};
use crate::trains::Trains;
use rail_base::NoMemory;
use std::alloc::Global;
use std::marker::Model;
use timetable::Instance;

/// The amounts of one row. A contract sees the list of them.
#[derive(Drop)]
pub(crate) struct AmountRow {
    amounts: Vec<i64>,
}

impl Model for AmountRow {
    ghost use Rattle.std.specs.Prelude.{List, ℤ};

    ghost Value = { List ℤ };

    ghost view = { λ a. a.amounts.items };
}

/// Amounts by row and column. A contract sees a list for each row.
#[derive(Drop)]
pub(crate) struct AmountTable {
    rows: Vec<AmountRow>,
}

impl Model for AmountTable {
    ghost use Rattle.std.specs.Prelude.{List, ℤ};

    ghost Value = { List (List ℤ) };

    ghost view = { λ a. a.rows.items };
}

impl AmountRow {
    /// A zero for each of so many columns.
    fn new(alloc: Global, columns: usize) -> Result<AmountRow, NoMemory>
        ensures { IfOk result (λ row. row ≡ replicate columns (pos 0)) }
    {
        Ok(AmountRow {
            amounts: vec![in alloc; 0; columns]?,
        })
    }

    /// Sets each amount to zero.
    fn clear(&mut self)
        ensures { self.new ≡ map (λ _. pos 0) self.old }
    {
        for column in 0..self.amounts.len() {
            self.amounts[column] = 0;
        }
    }

    /// Adds to the amount of a column, if there is one.
    fn add(&mut self, column: usize, amount: i64)
        ensures { self.new ≡ changed_at column amount self.old }
    {
        if column < self.amounts.len() {
            self.amounts[column] = self.amounts[column].saturating_add(amount);
        }
    }

    /// Adds to each amount all those of later columns.
    fn add_later(&mut self)
        ensures { self.new ≡ later_sums self.old }
    {
        let mut column = self.amounts.len();
        let mut sum: i64 = 0;
        while column > 0 {
            column -= 1;
            sum = sum.saturating_add(self.amounts[column]);
            self.amounts[column] = sum;
        }
    }

    /// Puts into each place the amount of a column of a table, from the row of the same number.
    fn copy_column(&mut self, table: &AmountTable, column: usize)
        requires { length self.old ≡ length table.now }
        ensures { self.new ≡ column_of column table.now }
    {
        copy_column(&mut self.amounts, &table.rows, column);
    }

    /// The amount of a column, and 0 where there is none.
    fn at(&self, column: usize) -> i64
        ensures { result ≡ get_or self.now column (pos 0) }
    {
        if column < self.amounts.len() {
            self.amounts[column]
        } else {
            0
        }
    }

    /// Puts for each composition the sum of what units of its types cost where they are given, and into another row
    /// where they are taken. Both have one place more, for no units.
    fn put_sums(
        &mut self,
        taken: &mut AmountRow,
        instance: &Instance,
        trains: &Trains,
        prices: &UnitPrices<'_>,
    )
        requires trains { AreTrains instance.now trains.now }
        requires gives { AreByType instance.now prices.now.gives.now }
        requires takes { AreByType instance.now prices.now.takes.now }
        requires room { length self.old ≡ suc (length (compositions_of instance.now)) }
        requires taken_room { length taken.old ≡ suc (length (compositions_of instance.now)) }
        ensures sums { AreSumsOf instance.now prices.now.gives.now self.new }
        ensures taken { AreSumsOf instance.now prices.now.takes.now taken.new }
    {
        if prices.are_free() {
            self.clear();
            taken.clear();
            return;
        }
        put_sums(
            instance,
            &trains.fronts,
            &trains.lasts,
            prices,
            &mut self.amounts,
            &mut taken.amounts,
        );
    }

    /// Changes the amount of a column, if there is one.
    fn put(&mut self, column: usize, amount: i64)
        ensures { self.new ≡ set self.old column amount }
    {
        if column < self.amounts.len() {
            self.amounts[column] = amount;
        }
    }

    /// The amounts.
    pub(crate) fn items(&self) -> &[i64]
        ensures { result.now ≡ self.now }
    {
        &self.amounts
    }
}

impl AmountTable {
    /// A zero for each of so many rows and columns.
    pub(crate) fn new(alloc: Global, rows: usize, columns: usize) -> Result<AmountTable, NoMemory>
        ensures { IfOk result (λ table. table ≡ replicate rows (replicate columns (pos 0))) }
    {
        let mut table = Vec::new(alloc);
        for row in 0..rows {
            table.push(AmountRow::new(alloc, columns)?)?;
        }
        Ok(AmountTable { rows: table })
    }

    /// Sets each amount to zero.
    pub(crate) fn clear(&mut self)
        ensures { self.new ≡ cleared_table self.old }
    {
        for row in 0..self.rows.len() {
            self.rows[row].clear();
        }
    }

    /// Adds to the amount of a row and a column, if there is one.
    pub(crate) fn add(&mut self, row: usize, column: usize, amount: i64)
        ensures { self.new ≡ changed_in row column amount self.old }
    {
        if row < self.rows.len() {
            self.rows[row].add(column, amount);
        }
    }

    /// Adds to each amount all those of later columns of its row.
    pub(crate) fn add_later(&mut self)
        ensures { self.new ≡ map later_sums self.old }
    {
        for row in 0..self.rows.len() {
            self.rows[row].add_later();
        }
    }

    /// Puts a column of a table, from its first row to its last, in place of a row.
    pub(crate) fn copy_column(&mut self, row: usize, table: &AmountTable, column: usize)
        requires row { row < length self.old }
        requires width { length (get_or self.old row []) ≡ length table.now }
        ensures { self.new ≡ set self.old row (column_of column table.now) }
    {
        self.rows[row].copy_column(table, column);
    }

    /// Puts into a row for each composition the sum of what units of its types cost where they are given, and into that
    /// row of another table where they are taken.
    pub(crate) fn put_sums(
        &mut self,
        taken: &mut AmountTable,
        row: usize,
        instance: &Instance,
        trains: &Trains,
        prices: &UnitPrices<'_>,
    )
        requires trains { AreTrains instance.now trains.now }
        requires gives { AreByType instance.now prices.now.gives.now }
        requires takes { AreByType instance.now prices.now.takes.now }
        requires row { HasSumRoom instance.now row self.old }
        requires taken_row { HasSumRoom instance.now row taken.old }
        ensures sums { IsRowSummed instance.now prices.now.gives.now row self.old self.new }
        ensures taken { IsRowSummed instance.now prices.now.takes.now row taken.old taken.new }
    {
        self.rows[row].put_sums(&mut taken.rows[row], instance, trains, prices);
    }

    /// Changes the amount of a row and a column, if there is one.
    pub(crate) fn put(&mut self, row: usize, column: usize, amount: i64)
        ensures { self.new ≡ put_in row column amount self.old }
    {
        if row < self.rows.len() {
            self.rows[row].put(column, amount);
        }
    }

    /// The row of a number, which is below the number of rows.
    pub(crate) fn row(&self, row: usize) -> &AmountRow
        requires { row < length self.now }
        ensures { result.now ≡ get_or self.now row [] }
    {
        &self.rows[row]
    }
}

/// Puts into each place the amount of a column of the row of the same number.
fn copy_column(amounts: &mut [i64], rows: &[AmountRow], column: usize)
    requires { length amounts.old ≡ length rows.now }
    ensures { amounts.new ≡ column_of column rows.now }
{
    for row in 0..rows.len() {
        amounts[row] = rows[row].at(column);
    }
}
