//! What the readers answer, in the words of tables.

ghost use Rattle.std.specs.Prelude.{◌≡◌, ◌↔◌, ℕ, List, Ok, Err};
ghost use Rattle.rail_csv.specs.Laws.{IsFirstWrong, IsTable, WeightsAreOneRow};
ghost use Rattle.rail_csv.specs.RowFaults.{EachRefusesLeftmost, IsWrongRow};
ghost use Rattle.rail_csv.specs.Spelling.{EachReadsWhatIsSpelled, IsRightRow};
ghost use Rattle.rail_csv.specs.Tables.{Columns, row_of, rows_under};
ghost use Rattle.rail_csv.specs.declared.refusal.TableRefusal.{TableRefusal};

/// For every table, whatever its columns: records are read to rows exactly where they are a table of these rows, and
/// refused for exactly the first wrong thing in them. The definition of each reader but `weights` is this reading
/// of the records of its bytes; that of `weights` asks for a row after it.
pub fn what_is_read<T: Drop>()
    // The header of a version is there, and at most as many rows as the limit, each read from its record.
    ensures accepted { (words : List (List ℕ)) (fewest limit : ℕ) (columns : Columns T) (records : List (List (List ℕ)))
        (rows : List T)
        → (rows_under words fewest limit columns records ≡ Ok rows) ↔ IsTable words fewest limit columns records rows }
    // No version's header is there, or a row is the first that is wrong, or there is one row too many.
    ensures refused { (words : List (List ℕ)) (fewest limit : ℕ) (columns : Columns T) (records : List (List (List ℕ)))
        (e : TableRefusal)
        → (rows_under words fewest limit columns records ≡ Err e) ↔ IsFirstWrong words fewest limit columns records e }
{}

/// For all bytes, by the definition of `weights`, which the call meets but for want of memory: they are read as a row
/// of weights exactly where their records, from the first to the last, are a weights table of this one row. They are
/// refused for want of a row exactly where their records are a weights table of no row, which is its header and nothing
/// after it. They are refused for anything else exactly where it is the first wrong thing in the records. No other
/// table, nor a plan, is ever refused for want of a row.
pub fn what_weights_are()
    ensures weights { WeightsAreOneRow }
{}

/// For every table, whatever its columns: a record is read as a row exactly where it has as many fields as its version
/// has columns, all of them are UTF-8, and its columns read them so. And of the seven tables, one of them the plan: the
/// columns read fields as a row exactly where in each column the field spells what the row has there, as a number, a
/// time, a name, a word or a list of units, and the row is within the ranges of its columns. Where the first version
/// lacks the last column of types, trips and links, a row that is read in it has 0 there, or no.
pub fn what_is_read_as_a_row<T: Drop>()
    // The number of fields, UTF-8 and the columns.
    ensures rows { (width : ℕ) (columns : Columns T) (number : ℕ) (fields : List (List ℕ)) (row : T)
        → (row_of width columns number fields ≡ Ok row) ↔ IsRightRow width columns number fields row }
    // Of the columns, what each field spells, and the ranges.
    ensures columns { EachReadsWhatIsSpelled }
{}

/// For every table, whatever its columns: a row is refused for exactly the first wrong thing in it. That is its number
/// of fields, where its version has another number of columns; or else a field that is not UTF-8; or else what its
/// columns refuse. And of the seven tables, one of them the plan: the columns refuse a row for exactly what the
/// leftmost column says that refuses its field, and every column to the left of it takes its own. The refusal names the
/// row and the number of that column, counted from 0.
pub fn what_is_wrong_in_a_row<T: Drop>()
    // The number of fields comes first, then UTF-8, then the columns.
    ensures rows { (width : ℕ) (columns : Columns T) (row : ℕ) (fields : List (List ℕ)) (e : TableRefusal)
        → (row_of width columns row fields ≡ Err e) ↔ IsWrongRow width columns row fields e }
    // Of the columns, the one that is wrong first from the left.
    ensures columns { EachRefusesLeftmost }
{}
