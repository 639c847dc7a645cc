//! Which of the schemas of a journal a database has.

ghost use Rattle.std.specs.Prelude.{◌≡◌, ◌≢◌, ◌↔◌, true, false, [], ◌∷◌, Some, codes, IsTrue, IfSome};
ghost use Rattle.sqlite.specs.Held.{state};
ghost use Rattle.sqlite.specs.declared.types.Value.TheVariants.{Null};
ghost use Rattle.dns_sqlite.specs.Statements.{HasTables};
ghost use Rattle.dns_sqlite.specs.Shapes.{column_of, AreNumbers, IsPlainTable, IsShape, IsStart};
ghost use Rattle.sqlite.specs.Kind.TheVariants.{Integer};
ghost use Rattle.dns_sqlite.specs.Tables.{versions, records, batches};
ghost use Rattle.dns_sqlite.specs.Versions.{version_alone, version_rows};
ghost use Rattle.dns_sqlite.specs.declared.schema.Start.TheVariants.{VersionAlone as FromVersion, Rows as FromRows};

use crate::schema::Start;
use sqlite::{Alter, Connection};
use sqlite_schema::schema::{Column, Kind, Schema, Table};
use sqlite_value::keys::Collation;
use sqlite_value::value::Value;

/// Which tables a database has, with their columns, and no other table, index or view.
#[derive(Clone, Copy, Debug, PartialEq, Eq)]
pub enum Shape {
    /// No table.
    Empty,
    /// The table of the version alone.
    VersionAlone,
    /// The tables of the version and of the rows.
    Rows,
    /// The tables of the version, of the rows and of the batches.
    Batches,
    /// Anything else.
    Foreign,
}

fn is_null(value: &Value) -> bool
    ensures { IsTrue result ↔ (value.now ≡ Null) }
{
    matches!(value, Value::Null)
}

/// Whether this is a column of that name and kind, with no default.
fn is_column(column: &Column, name: &[u8], kind: Kind, not_null: bool) -> bool
    ensures { IsTrue result ↔ (column.now ≡ column_of name.now kind not_null) }
{
    if column.name.as_slice() != name {
        return false;
    }
    if column.kind != kind {
        return false;
    }
    if column.is_strict {
        return false;
    }
    if column.not_null != not_null {
        return false;
    }
    if column.collation != Collation::Binary {
        return false;
    }
    is_null(&column.default)
}

/// Whether a table has columns alone.
fn is_plain(table: &Table) -> bool
    ensures { IsTrue result ↔ (IsPlainTable table.now) }
{
    if !table.uniques.is_empty() {
        return false;
    }
    if !table.orders.is_empty() {
        return false;
    }
    if !table.checks.roots.is_empty() {
        return false;
    }
    if !table.references.is_empty() {
        return false;
    }
    if !table.computed.is_empty() {
        return false;
    }
    if !table.stamps.places.is_empty() {
        return false;
    }
    if !table.stamps.terms.roots.is_empty() {
        return false;
    }
    if !table.stamps.formats.is_empty() {
        return false;
    }
    !table.is_counted
}

/// Whether a table has this name, place and key, and no constraint but those of its columns.
fn is_named(table: &Table, name: &[u8], tree: u32) -> bool
    ensures { IsTrue result ↔ (IsPlainTable table.now × (table.now.name ≡ name.now) × (table.now.tree ≡ tree)) }
{
    if table.name.as_slice() != name {
        return false;
    }
    if table.tree != tree {
        return false;
    }
    is_plain(table)
}

/// The columns of the version.
fn are_version(columns: &[Column]) -> bool
    ensures { IsTrue result ↔ (columns.now ≡ versions.columns) }
{
    match columns {
        [version] => is_column(version, b"version".as_slice(), Kind::Integer, true),
        _ => false,
    }
}

/// Whether this is the table of the version.
fn is_versions(table: &Table) -> bool
    ensures { IsTrue result ↔ (table.now ≡ versions) }
{
    if !is_named(table, b"tdns_schema".as_slice(), 0) {
        return false;
    }
    if table.key.is_some() {
        return false;
    }
    if !table.primary.is_empty() {
        return false;
    }
    are_version(table.columns.as_slice())
}

/// The first three columns of a row.
fn are_numbers(id: &Column, client: &Column, serial: &Column) -> bool
    ensures { IsTrue result ↔ AreNumbers id.now client.now serial.now }
{
    if !is_column(id, b"id".as_slice(), Kind::Integer, false) {
        return false;
    }
    if !is_column(client, b"client_id".as_slice(), Kind::Integer, true) {
        return false;
    }
    is_column(serial, b"soa_serial".as_slice(), Kind::Integer, true)
}

/// The columns of a row.
fn are_columns(columns: &[Column]) -> bool
    ensures { IsTrue result ↔ (columns.now ≡ records.columns) }
{
    match columns {
        [id, client, serial, stamp, record] => {
            if !are_numbers(id, client, serial) {
                return false;
            }
            if !is_column(stamp, b"timestamp".as_slice(), Kind::Text, true) {
                return false;
            }
            is_column(record, b"record".as_slice(), Kind::Any, true)
        }
        _ => false,
    }
}

/// The key is the first column.
fn is_keyed(table: &Table) -> bool
    ensures { IsTrue result ↔ ((table.now.key ≡ Some 0) × (table.now.primary ≡ 0 ∷ [])) }
{
    if table.key != Some(0) {
        return false;
    }
    match table.primary.as_slice() {
        [place] => *place == 0,
        _ => false,
    }
}

/// Whether this is the table of the rows.
fn is_records(table: &Table) -> bool
    ensures { IsTrue result ↔ (table.now ≡ records) }
{
    if !is_named(table, b"records".as_slice(), 1) {
        return false;
    }
    if !is_keyed(table) {
        return false;
    }
    are_columns(table.columns.as_slice())
}

/// The columns of a batch.
fn are_batch_columns(columns: &[Column]) -> bool
    ensures { IsTrue result ↔ (columns.now ≡ batches.columns) }
{
    match columns {
        [first, count] => {
            if !is_column(first, b"first".as_slice(), Kind::Integer, false) {
                return false;
            }
            is_column(count, b"count".as_slice(), Kind::Integer, true)
        }
        _ => false,
    }
}

/// Whether this is the table of the batches.
fn is_batches(table: &Table) -> bool
    ensures { IsTrue result ↔ (table.now ≡ batches) }
{
    if !is_named(table, b"batches".as_slice(), 2) {
        return false;
    }
    if !is_keyed(table) {
        return false;
    }
    are_batch_columns(table.columns.as_slice())
}

/// The shape of a database with one table.
fn shape_of_one(first: &Table) -> Shape
    ensures alone { result ≡ Shape.VersionAlone → first.now ≡ versions }
    ensures foreign { result ≡ Shape.Foreign → first.now ≢ versions }
    ensures other { (result ≢ Shape.Empty) × (result ≢ Shape.Rows) × (result ≢ Shape.Batches) }
{
    if is_versions(first) {
        Shape::VersionAlone
    } else {
        Shape::Foreign
    }
}

/// The shape of a database with two tables.
fn shape_of_two(first: &Table, second: &Table) -> Shape
    ensures rows { result ≡ Shape.Rows → (first.now ≡ versions) × (second.now ≡ records) }
    ensures foreign { result ≡ Shape.Foreign → first.now ≡ versions → second.now ≢ records }
    ensures other { (result ≢ Shape.Empty) × (result ≢ Shape.VersionAlone) × (result ≢ Shape.Batches) }
{
    if !is_versions(first) {
        return Shape::Foreign;
    }
    if is_records(second) {
        Shape::Rows
    } else {
        Shape::Foreign
    }
}

/// The shape of a database with three tables.
fn shape_of_three(first: &Table, second: &Table, third: &Table) -> Shape
    ensures batches { result ≡ Shape.Batches → (first.now ≡ versions) × (second.now ≡ records) × (third.now ≡ batches) }
    ensures foreign { result ≡ Shape.Foreign → first.now ≡ versions → second.now ≡ records → third.now ≢ batches }
    ensures other { (result ≢ Shape.Empty) × (result ≢ Shape.VersionAlone) × (result ≢ Shape.Rows) }
{
    if shape_of_two(first, second) != Shape::Rows {
        return Shape::Foreign;
    }
    if is_batches(third) {
        Shape::Batches
    } else {
        Shape::Foreign
    }
}

/// Which of the shapes the schema has.
pub fn shape_of(schema: &Schema) -> Shape
    ensures { IsShape schema.now result }
{
    if !schema.indexes.is_empty() {
        return Shape::Foreign;
    }
    if !schema.views.is_empty() {
        return Shape::Foreign;
    }
    match schema.tables.as_slice() {
        [] => Shape::Empty,
        [first] => shape_of_one(first),
        [first, second] => shape_of_two(first, second),
        [first, second, third] => shape_of_three(first, second, third),
        _ => Shape::Foreign,
    }
}

/// Whether a connection has the three tables of a journal, and no other table, index or view.
pub fn has_tables<S: Alter>(conn: &Connection<S>) -> bool
    ensures { IsTrue result ↔ HasTables (state S.Store conn.now).now }
{
    match shape_of(conn.schema()) {
        Shape::Batches => true,
        _ => false,
    }
}

/// From what the tables of the current version are made, where the journal has this version: from an empty database, or else from the
/// tables of an earlier version, which has to be this one. None where the connection shows none of them.
pub fn start_of<S: Alter>(conn: &Connection<S>, version: i64) -> Option<Start>
    ensures { IfSome result (λ start. IsStart start version (state S.Store conn.now).now.schema) }
{
    match shape_of(conn.schema()) {
        Shape::Empty => Some(Start::NoTable),
        Shape::VersionAlone => alone_of(version),
        Shape::Rows => rows_of(version),
        _ => None,
    }
}

/// The start from the table of the version alone, which has to say 0.
fn alone_of(version: i64) -> Option<Start>
    ensures { IfSome result (λ start. (start ≡ FromVersion) × (version ≡ version_alone)) }
{
    if version == 0 {
        Some(Start::VersionAlone)
    } else {
        None
    }
}

/// The start from the tables of the version and of the rows, which have to be of version 1.
fn rows_of(version: i64) -> Option<Start>
    ensures { IfSome result (λ start. (start ≡ FromRows) × (version ≡ version_rows)) }
{
    if version == 1 {
        Some(Start::Rows)
    } else {
        None
    }
}
