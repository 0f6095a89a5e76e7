//! The columns of each table.

ghost use Rattle.std.specs.Prelude.{◌≡◌};

use crate::columns;
use crate::reading::TableRow;
use crate::refusal::TableRefusal;
use crate::rows::{LinkRow, PlanRow, StationRow, StockRow, TripRow, TypeRow, WeightsRow};
use csv::StringRecord;
use rail_base::limits::{
    MAX_CARRIAGES, MAX_DEMAND, MAX_FIRST_DEMAND, MAX_FIRST_SEATS, MAX_KM, MAX_METRES, MAX_PLATFORM,
    MAX_REALLOCATION, MAX_SEATS, MAX_STOCK, MAX_WEIGHT,
};
use std::alloc::Global;

impl TableRow for TypeRow {
    ghost use Rattle.rail_csv.specs.Tables.{type_columns};

    ghost columns = { type_columns };

    #[tactic(auto, unfolding(crate::specs::Tables::type_columns))]
    fn read(alloc: Global, row: u32, fields: &StringRecord) -> Result<TypeRow, TableRefusal> {
        let name = columns::name(alloc, fields, row, 0)?;
        let carriages = columns::number(fields, 1, MAX_CARRIAGES, row, 1)?;
        let seats = columns::number(fields, 1, MAX_SEATS, row, 2)?;
        let metres = columns::number(fields, 1, MAX_METRES, row, 3)?;
        let family = columns::name(alloc, fields, row, 4)?;
        let first = columns::number_or("0", fields, 0, MAX_FIRST_SEATS, row, 5)?;
        Ok(TypeRow {
            name,
            carriages,
            seats,
            metres,
            family,
            first,
        })
    }
}

impl TableRow for StationRow {
    ghost use Rattle.rail_csv.specs.Tables.{station_columns};

    ghost columns = { station_columns };

    #[tactic(auto, unfolding(crate::specs::Tables::station_columns))]
    fn read(alloc: Global, row: u32, fields: &StringRecord) -> Result<StationRow, TableRefusal> {
        let name = columns::name(alloc, fields, row, 0)?;
        let platform = columns::number(fields, 1, MAX_PLATFORM, row, 1)?;
        let reallocation = columns::number(fields, 0, MAX_REALLOCATION, row, 2)?;
        Ok(StationRow {
            name,
            platform,
            reallocation,
        })
    }
}

impl TableRow for StockRow {
    ghost use Rattle.rail_csv.specs.Tables.{stock_columns};

    ghost columns = { stock_columns };

    #[tactic(auto, unfolding(crate::specs::Tables::stock_columns))]
    fn read(alloc: Global, row: u32, fields: &StringRecord) -> Result<StockRow, TableRefusal> {
        let station = columns::name(alloc, fields, row, 0)?;
        let unit_type = columns::name(alloc, fields, row, 1)?;
        let start = columns::number(fields, 0, MAX_STOCK, row, 2)?;
        let end = columns::number(fields, 0, MAX_STOCK, row, 3)?;
        Ok(StockRow {
            station,
            unit_type,
            start,
            end,
        })
    }
}

impl TableRow for TripRow {
    ghost use Rattle.rail_csv.specs.Tables.{trip_columns};

    ghost columns = { trip_columns };

    #[tactic(auto, unfolding(crate::specs::Tables::trip_columns))]
    fn read(alloc: Global, row: u32, fields: &StringRecord) -> Result<TripRow, TableRefusal> {
        let name = columns::name(alloc, fields, row, 0)?;
        let from = columns::name(alloc, fields, row, 1)?;
        let departure = columns::time(fields, row, 2)?;
        let to = columns::name(alloc, fields, row, 3)?;
        let arrival = columns::time(fields, row, 4)?;
        let km = columns::number(fields, 1, MAX_KM, row, 5)?;
        let demand = columns::number(fields, 0, MAX_DEMAND, row, 6)?;
        let first = columns::number_or("0", fields, 0, MAX_FIRST_DEMAND, row, 7)?;
        Ok(TripRow {
            name,
            from,
            departure,
            to,
            arrival,
            km,
            demand,
            first,
        })
    }
}

impl TableRow for LinkRow {
    ghost use Rattle.rail_csv.specs.Tables.{link_columns};

    ghost columns = { link_columns };

    #[tactic(auto, unfolding(crate::specs::Tables::link_columns))]
    fn read(alloc: Global, row: u32, fields: &StringRecord) -> Result<LinkRow, TableRefusal> {
        let kind = columns::kind(fields, row, 0)?;
        let arriving = columns::name(alloc, fields, row, 1)?;
        let arriving2 = columns::optional_name(alloc, fields, row, 2)?;
        let departing = columns::name(alloc, fields, row, 3)?;
        let departing2 = columns::optional_name(alloc, fields, row, 4)?;
        let reverse = columns::answer(fields, row, 5)?;
        let uncouple = columns::end(fields, row, 6)?;
        let couple = columns::end(fields, row, 7)?;
        let exchange = columns::answer_or("no", fields, row, 8)?;
        Ok(LinkRow {
            kind,
            arriving,
            arriving2,
            departing,
            departing2,
            reverse,
            uncouple,
            couple,
            exchange,
        })
    }
}

impl TableRow for WeightsRow {
    ghost use Rattle.rail_csv.specs.Tables.{weight_columns};

    ghost columns = { weight_columns };

    #[tactic(auto, unfolding(crate::specs::Tables::weight_columns))]
    fn read(_alloc: Global, row: u32, fields: &StringRecord) -> Result<WeightsRow, TableRefusal> {
        let carriage = columns::number(fields, 0, MAX_WEIGHT, row, 0)?;
        let shortage = columns::number(fields, 0, MAX_WEIGHT, row, 1)?;
        let shunting = columns::number(fields, 0, MAX_WEIGHT, row, 2)?;
        Ok(WeightsRow {
            carriage,
            shortage,
            shunting,
        })
    }
}

impl TableRow for PlanRow {
    ghost use Rattle.rail_csv.specs.Tables.{plan_columns};

    ghost columns = { plan_columns };

    #[tactic(auto, unfolding(crate::specs::Tables::plan_columns))]
    fn read(alloc: Global, row: u32, fields: &StringRecord) -> Result<PlanRow, TableRefusal> {
        let trip = columns::name(alloc, fields, row, 0)?;
        let units = columns::units(alloc, fields, row, 1)?;
        Ok(PlanRow { trip, units })
    }
}
