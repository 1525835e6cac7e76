//! Whether a schema is that of a book.
//!
//! Each table has its columns, in their order, with their names and types, and no other table or view
//! stands beside them: the four of a book, or the three of a database that knows the first format alone, with the
//! one index that the UNIQUE of its journal makes. Constraints are not compared: they may refuse a row, and never
//! change what a row says. So each schema of a book is taken, whatever its constraints are.
ghost use Rattle.std.specs.Prelude.{◌≡◌, Some, false, true, [], ◌∷◌, codes, IsTrue};
ghost use Rattle.sqlite.specs.declared.types.Value.TheVariants.{Null};
ghost use Rattle.sqlite_schema.specs.declared.schema.Index.{Index as Of};
ghost use Rattle.keeper_sqlite.specs.Tables.{key_column, number_column, blob_column, meta_columns, mutation_columns, journal_columns, second_columns, rowid_table, constraints, IsTable, IsBookSchema, IsFirstSchema, no_schema};

use sqlite_schema::schema::{Column, Index, Kind, Schema, Stamps, Table};
use sqlite_value::keys::Collation;
use sqlite_value::value::Value;

fn is_plain(column: &Column, name: &[u8]) -> bool
    ensures is { IsTrue result → column.now ≡ record column.now { name = name.now; is_strict = true; default = Null; collation = Collation.Binary } }
    ensures taken { column.now ≡ record column.now { name = name.now; is_strict = true; default = Null; collation = Collation.Binary } → IsTrue result }
{
    column.name.as_slice() == name
        && column.is_strict
        && matches!(column.default, Value::Null)
        && matches!(column.collation, Collation::Binary)
}

fn is_key(column: &Column, name: &[u8]) -> bool
    ensures is { IsTrue result → column.now ≡ key_column name.now }
    ensures taken { column.now ≡ key_column name.now → IsTrue result }
{
    is_plain(column, name) && !column.not_null && matches!(column.kind, Kind::Integer)
}

fn is_number(column: &Column, name: &[u8]) -> bool
    ensures is { IsTrue result → column.now ≡ number_column name.now }
    ensures taken { column.now ≡ number_column name.now → IsTrue result }
{
    is_plain(column, name) && column.not_null && matches!(column.kind, Kind::Integer)
}

fn is_blob(column: &Column, name: &[u8]) -> bool
    ensures is { IsTrue result → column.now ≡ blob_column name.now }
    ensures taken { column.now ≡ blob_column name.now → IsTrue result }
{
    is_plain(column, name) && column.not_null && matches!(column.kind, Kind::Blob)
}

fn is_unstamped(stamps: &Stamps) -> bool
    ensures is { IsTrue result → stamps.now ≡ record { places = []; terms = []; formats = [] } }
    ensures taken { stamps.now ≡ record { places = []; terms = []; formats = [] } → IsTrue result }
{
    let terms = &stamps.terms;
    stamps.places.is_empty() && terms.roots.is_empty() && stamps.formats.is_empty()
}

fn is_table(table: &Table, name: &[u8], tree: u32) -> bool
    ensures is { IsTrue result → IsTable table.now name.now tree }
    ensures taken { IsTable table.now name.now tree → IsTrue result }
{
    let key_is_first = matches!(table.key, Some(0));
    table.name.as_slice() == name
        && table.tree == tree
        && key_is_first
        && table.references.is_empty()
        && table.computed.is_empty()
        && is_unstamped(&table.stamps)
        && !table.is_counted
}

fn are_meta_columns(columns: &[Column]) -> bool
    ensures is { IsTrue result → columns.now ≡ meta_columns }
    ensures taken { columns.now ≡ meta_columns → IsTrue result }
{
    match columns {
        [item, body] => is_key(item, b"item") && is_blob(body, b"body"),
        _ => false,
    }
}

fn are_mutation_columns(columns: &[Column]) -> bool
    ensures is { IsTrue result → columns.now ≡ mutation_columns }
    ensures taken { columns.now ≡ mutation_columns → IsTrue result }
{
    match columns {
        [number, place] => is_key(number, b"number") && is_blob(place, b"place"),
        _ => false,
    }
}

fn are_journal_columns(columns: &[Column]) -> bool
    ensures is { IsTrue result → columns.now ≡ journal_columns }
    ensures taken { columns.now ≡ journal_columns → IsTrue result }
{
    let [seq, mutation, test, word, mark, tags] = columns else {
        return false;
    };
    if !is_key(seq, b"seq") {
        return false;
    }
    if !is_number(mutation, b"mutation") || !is_number(test, b"test") {
        return false;
    }
    if !is_number(word, b"word") || !is_number(mark, b"mark") {
        return false;
    }
    is_number(tags, b"tags")
}

fn are_second_columns(columns: &[Column]) -> bool
    ensures is { IsTrue result → columns.now ≡ second_columns }
    ensures taken { columns.now ≡ second_columns → IsTrue result }
{
    match columns {
        [entry @ .., bound] => are_journal_columns(entry) && is_number(bound, b"bound"),
        [] => false,
    }
}

fn is_meta(table: &Table) -> bool
    ensures is { IsTrue result → table.now ≡ rowid_table (codes "meta") 0 meta_columns (constraints table.now) }
    ensures taken { table.now ≡ rowid_table (codes "meta") 0 meta_columns (constraints table.now) → IsTrue result }
{
    is_table(table, b"meta", 0) && are_meta_columns(table.columns.as_slice())
}

fn is_mutations(table: &Table) -> bool
    ensures is { IsTrue result → table.now ≡ rowid_table (codes "mutations") 1 mutation_columns (constraints table.now) }
    ensures taken { table.now ≡ rowid_table (codes "mutations") 1 mutation_columns (constraints table.now) → IsTrue result }
{
    is_table(table, b"mutations", 1) && are_mutation_columns(table.columns.as_slice())
}

fn is_journal(table: &Table) -> bool
    ensures is { IsTrue result → table.now ≡ rowid_table (codes "journal") 2 journal_columns (constraints table.now) }
    ensures taken { table.now ≡ rowid_table (codes "journal") 2 journal_columns (constraints table.now) → IsTrue result }
{
    is_table(table, b"journal", 2) && are_journal_columns(table.columns.as_slice())
}

fn is_second(table: &Table) -> bool
    ensures is { IsTrue result → table.now ≡ rowid_table (codes "journal2") 4 second_columns (constraints table.now) }
    ensures taken { table.now ≡ rowid_table (codes "journal2") 4 second_columns (constraints table.now) → IsTrue result }
{
    is_table(table, b"journal2", 4) && are_second_columns(table.columns.as_slice())
}

/// The index that the UNIQUE of `journal` makes, and no other.
fn is_own_index(indexes: &[Index]) -> bool
    ensures is { IsTrue result → (i : Of) × (indexes.now ≡ record i { tree = 3 } ∷ []) }
    ensures taken { (i : Of) → indexes.now ≡ record i { tree = 3 } ∷ [] → IsTrue result }
{
    match indexes {
        [index] => index.tree == 3,
        _ => false,
    }
}

/// Whether the tables are those of a book.
pub fn is_book_schema(schema: &Schema) -> bool
    ensures is { IsTrue result → IsBookSchema schema.now }
    ensures taken { IsBookSchema schema.now → IsTrue result }
{
    let [meta, mutations, journal, second] = schema.tables.as_slice() else {
        return false;
    };
    if !is_meta(meta) || !is_mutations(mutations) || !is_journal(journal) {
        return false;
    }
    is_second(second) && schema.views.is_empty()
}

/// Whether the tables are those of a database that knows the first format alone.
pub fn is_first_schema(schema: &Schema) -> bool
    ensures is { IsTrue result → IsFirstSchema schema.now }
    ensures taken { IsFirstSchema schema.now → IsTrue result }
{
    let [meta, mutations, journal] = schema.tables.as_slice() else {
        return false;
    };
    if !is_meta(meta) || !is_mutations(mutations) || !is_journal(journal) {
        return false;
    }
    is_own_index(schema.indexes.as_slice()) && schema.views.is_empty()
}

/// Whether there is no table, no index and no view.
pub fn is_no_schema(schema: &Schema) -> bool
    ensures is { IsTrue result → schema.now ≡ no_schema }
    ensures taken { schema.now ≡ no_schema → IsTrue result }
{
    schema.tables.is_empty() && schema.indexes.is_empty() && schema.views.is_empty()
}
