//! The rows of a report, and the text that csv makes of them.

ghost use Rattle.std.specs.Prelude.{◌≡◌, ◌++◌, ◌∷◌, [], map, IfOk, OnOk, string_bytes};
ghost use Rattle.std.specs.Fmt.{decimal};
ghost use Rattle.day_reports.specs.Text.{rows_text};

use csv::{ByteRecord, WriterBuilder};
use rail_base::NoMemory;
use std::alloc::Global;
use std::marker::Model;

/// The rows of a report, the header first. A contract sees the list of them, each the list of its fields.
#[derive(Drop)]
pub(crate) struct Report {
    alloc: Global,
    rows: Vec<ByteRecord>,
}

impl Model for Report {
    ghost use Rattle.std.specs.Prelude.{List, ℕ, map};
    ghost use Rattle.csv.specs.Records.{fields_of};

    ghost Value = { List (List (List ℕ)) };

    ghost view = { λ a. map fields_of a.rows.items };
}

impl Report {
    /// A report of no rows.
    pub(crate) fn new(alloc: Global) -> Report
        ensures { result ≡ [] }
    {
        Report {
            alloc,
            rows: Vec::new(alloc),
        }
    }

    /// Adds a row of these fields at the end.
    pub(crate) fn push(&mut self, fields: &[&[u8]]) -> Result<(), NoMemory>
        ensures { OnOk result (self.new ≡ self.old ++ map (λ field. field.now) fields.now ∷ []) }
    {
        let row = ByteRecord::from_fields(self.alloc, fields)?;
        self.rows.push(row)?;
        Ok(())
    }

    /// The text of the rows.
    pub(crate) fn text(&self) -> Result<Vec<u8>, NoMemory>
        ensures { IfOk result (λ text. text.items ≡ rows_text self.now) }
    {
        let mut writer = WriterBuilder::new().from_writer(Vec::new(self.alloc));
        for row in &self.rows {
            if writer.write_byte_record(row).is_err() {
                return Err(NoMemory);
            }
        }
        match writer.into_inner() {
            Ok(text) => Ok(text),
            Err(_) => Err(NoMemory),
        }
    }
}

/// A number in decimal digits.
pub(crate) fn digits_of(alloc: Global, number: u32) -> Result<String, NoMemory>
    ensures { IfOk result (λ text. string_bytes text ≡ decimal number) }
{
    Ok(format!(in alloc; "{number}")?)
}
