//! The SQL text of each statement.
//!
//! The tables are part of the file format (`docs/FORMATS.md`). Each key is the table's rowid, so that the
//! rows lie in the order of their keys. Each number is from 0 to 4,294,967,295.

/// `item` is the number of the item, from 0.
pub(crate) const CREATE_META: &str =
    "CREATE TABLE IF NOT EXISTS meta(item INTEGER PRIMARY KEY CHECK(item BETWEEN 0 AND 4294967295), body BLOB NOT NULL) STRICT";

/// `number` is the number of the mutation, from 0.
pub(crate) const CREATE_MUTATIONS: &str =
    "CREATE TABLE IF NOT EXISTS mutations(number INTEGER PRIMARY KEY CHECK(number BETWEEN 0 AND 4294967295), place BLOB NOT NULL) STRICT";

/// `seq` is the place of the row in the journal, from 0. A mutation meets each test once. It has the rows of a
/// book of the first format.
pub(crate) const CREATE_JOURNAL: &str =
    "CREATE TABLE IF NOT EXISTS journal(seq INTEGER PRIMARY KEY CHECK(seq BETWEEN 0 AND 4294967295), mutation INTEGER NOT NULL CHECK(mutation BETWEEN 0 AND 4294967295), test INTEGER NOT NULL CHECK(test BETWEEN 0 AND 4294967295), word INTEGER NOT NULL CHECK(word BETWEEN 0 AND 4294967295), mark INTEGER NOT NULL CHECK(mark BETWEEN 0 AND 4294967295), tags INTEGER NOT NULL CHECK(tags BETWEEN 0 AND 4294967295), UNIQUE(mutation, test)) STRICT";

/// The same of the second format, with the bound behind. A mutation meets each test once under each bound.
pub(crate) const CREATE_SECOND: &str =
    "CREATE TABLE IF NOT EXISTS journal2(seq INTEGER PRIMARY KEY CHECK(seq BETWEEN 0 AND 4294967295), mutation INTEGER NOT NULL CHECK(mutation BETWEEN 0 AND 4294967295), test INTEGER NOT NULL CHECK(test BETWEEN 0 AND 4294967295), word INTEGER NOT NULL CHECK(word BETWEEN 0 AND 4294967295), mark INTEGER NOT NULL CHECK(mark BETWEEN 0 AND 4294967295), tags INTEGER NOT NULL CHECK(tags BETWEEN 0 AND 4294967295), bound INTEGER NOT NULL CHECK(bound BETWEEN 0 AND 4294967295), UNIQUE(mutation, test, bound)) STRICT";

pub(crate) const SELECT_META: &str = "SELECT item, body FROM meta ORDER BY item";

pub(crate) const SELECT_MUTATIONS: &str = "SELECT number, place FROM mutations ORDER BY number";

pub(crate) const SELECT_JOURNAL: &str =
    "SELECT seq, mutation, test, word, mark, tags FROM journal ORDER BY seq";

pub(crate) const SELECT_SECOND: &str =
    "SELECT seq, mutation, test, word, mark, tags, bound FROM journal2 ORDER BY seq";

pub(crate) const INSERT_META: &str = "INSERT INTO meta (item, body) VALUES (?1, ?2)";

pub(crate) const INSERT_MUTATION: &str = "INSERT INTO mutations (number, place) VALUES (?1, ?2)";

pub(crate) const INSERT_ENTRY: &str =
    "INSERT INTO journal (seq, mutation, test, word, mark, tags) VALUES (?1, ?2, ?3, ?4, ?5, ?6)";

pub(crate) const INSERT_BOUNDED: &str =
    "INSERT INTO journal2 (seq, mutation, test, word, mark, tags, bound) VALUES (?1, ?2, ?3, ?4, ?5, ?6, ?7)";

pub(crate) const CLEAR_JOURNAL: &str = "DELETE FROM journal";

/// The body is the number of the second format, `2`.
pub(crate) const NUMBER_SECOND: &str = "UPDATE meta SET body = x'32' WHERE item = 0";

/// It reads no table: it is prepared, and not run.
pub(crate) const PROBE: &str = "SELECT 1";
