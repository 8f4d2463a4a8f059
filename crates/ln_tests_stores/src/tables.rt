//! Databases that a store isn't made over: nothing of them is changed.

use crate::database::connected_anew;
use crate::samples::{Sample, has_all};
use ln_refusals::Refusal;
use ln_sqlite::SqliteStore;
use sqlite::types::ValueRef;
use sqlite::{Alter, Connection, Error};
use std::alloc::Global;
use std::test::Fail;

const TABLE: &str = "CREATE TABLE records(id BLOB PRIMARY KEY, body BLOB NOT NULL);";

fn number<S: Alter + Drop>(connection: &mut Connection<S>, text: &str) -> Result<i64, Error> {
    connection.query_row(text, &[])?.get(0)
}

/// How many tables, indexes and views a database has, and how many rows its table of records.
fn counts<S: Alter + Drop>(connection: &mut Connection<S>) -> Result<(i64, i64), Error> {
    let names = number(connection, "SELECT count(*) FROM sqlite_master")?;
    let rows = number(connection, "SELECT count(*) FROM records")?;
    Ok((names, rows))
}

/// The connection that a store isn't made over.
fn refused<S: Alter + Drop>(alloc: Global, connection: Connection<S>) -> Option<Connection<S>> {
    match SqliteStore::over(alloc, connection) {
        Err((Refusal::Store, connection)) => Some(connection),
        other => {
            drop(other);
            None
        }
    }
}

/// Whether a database is refused and is as it was then.
fn is_left<S: Alter + Drop>(alloc: Global, mut connection: Connection<S>) -> Result<bool, Error> {
    let before = counts(&mut connection)?;
    match refused(alloc, connection) {
        Some(mut connection) => Ok(counts(&mut connection)? == before),
        None => Ok(false),
    }
}

/// Whether a store over it has the two records of one byte.
fn has_both<S: Alter + Drop>(alloc: Global, connection: Connection<S>) -> Result<bool, Error> {
    match SqliteStore::over(alloc, connection) {
        Ok(mut store) => Ok(has_all(alloc, &mut store, &BOTH) == Ok(true)),
        Err((_, connection)) => {
            drop(connection);
            Ok(false)
        }
    }
}

const BOTH: [Sample; 2] = [
    Sample {
        id: 7,
        len: 1,
        byte: 1,
    },
    Sample {
        id: 8,
        len: 1,
        byte: 1,
    },
];

/// A row's id and body.
type Row = (ValueRef<'static>, ValueRef<'static>);

/// Adds what texts and rows have.
fn fill<S: Alter + Drop>(
    connection: &mut Connection<S>,
    texts: &[&str],
    rows: &[Row],
) -> Result<(), Error> {
    for text in texts {
        connection.execute_batch(text)?;
    }
    for (id, body) in rows {
        connection.execute("INSERT INTO records VALUES (?1, ?2)", &[*id, *body])?;
    }
    Ok(())
}

/// What a database is that has this alone: one that is refused and left as it was, or one whose store has the two
/// records.
fn is_so<S: Alter + Drop>(
    alloc: Global,
    mut connection: Connection<S>,
    texts: &[&str],
    rows: &[Row],
    refused: bool,
) -> Result<bool, Error> {
    fill(&mut connection, texts, rows)?;
    if refused {
        is_left(alloc, connection)
    } else {
        has_both(alloc, connection)
    }
}

/// The same of one over files in memory, as all tests have it: another kind of database would be compiled for these
/// alone. The one function that names its type.
fn is_so_in_memory(
    alloc: Global,
    texts: &[&str],
    rows: &[Row],
    refused: bool,
) -> Result<bool, Error> {
    match connected_anew(alloc) {
        Ok(connection) => is_so(alloc, connection, texts, rows, refused),
        Err(_) => Ok(false),
    }
}

#[test]
fn other_tables(rt: HostRuntime) -> Result<(), Fail> {
    for texts in [
        ["CREATE TABLE records(id BLOB PRIMARY KEY, body BLOB)", ""],
        [
            "CREATE TABLE records(id BLOB PRIMARY KEY, body TEXT NOT NULL)",
            "",
        ],
        [
            "CREATE TABLE records(id TEXT PRIMARY KEY, body BLOB NOT NULL)",
            "",
        ],
        ["CREATE TABLE records(id BLOB, body BLOB NOT NULL)", ""],
        [
            "CREATE TABLE records(body BLOB NOT NULL, id BLOB PRIMARY KEY)",
            "",
        ],
        [
            "CREATE TABLE records(id BLOB PRIMARY KEY, body BLOB NOT NULL, note BLOB)",
            "",
        ],
        [
            "CREATE TABLE records(id BLOB PRIMARY KEY, body BLOB NOT NULL) STRICT",
            "",
        ],
        [TABLE, "CREATE TABLE others(id BLOB)"],
        [TABLE, "CREATE INDEX by_body ON records(body)"],
        [TABLE, "CREATE VIEW bodies AS SELECT body FROM records"],
        [TABLE, "BEGIN"],
    ] {
        assert!(rt;
            is_so_in_memory(rt.alloc(), &texts, &[], true)?,
            "{} {}",
            texts[0],
            texts[1]
        );
    }
    Ok(())
}

const ID: [u8; 32] = [7; 32];

/// The row that stands beside each.
const BESIDE: Row = (ValueRef::Blob(&[8; 32]), ValueRef::Blob(&[1]));

// Rows that no store has, and one that a store has.
#[test]
fn rows(rt: HostRuntime) -> Result<(), Fail> {
    for (id, body, refused) in [
        (ValueRef::Blob(&ID[1..]), ValueRef::Blob(&[1]), true),
        (ValueRef::Text(b"seven"), ValueRef::Blob(&[1]), true),
        (ValueRef::Null, ValueRef::Blob(&[1]), true),
        (ValueRef::Int(7), ValueRef::Blob(&[1]), true),
        (ValueRef::Blob(&ID), ValueRef::Text(b"one"), true),
        (ValueRef::Blob(&ID), ValueRef::Int(1), true),
        (ValueRef::Blob(&ID), ValueRef::Blob(&[1]), false),
    ] {
        assert!(rt; is_so_in_memory(rt.alloc(), &[TABLE], &[BESIDE, (id, body)], refused)?);
    }
    Ok(())
}
