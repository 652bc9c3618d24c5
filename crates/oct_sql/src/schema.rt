//! What stands before and behind the rows.

/// What makes the tables anew, which are empty then.
pub(crate) const OPENING: &[u8] =
    b"-- A table of nim-values, by census: docs/DATABASE.md says what its tables have.\n\
BEGIN;\n\
DROP VIEW IF EXISTS log;\n\
DROP TABLE IF EXISTS forks;\n\
DROP TABLE IF EXISTS notes;\n\
DROP TABLE IF EXISTS operations;\n\
DROP TABLE IF EXISTS claims;\n\
DROP TABLE IF EXISTS blocks;\n\
DROP TABLE IF EXISTS game_values;\n\
DROP TABLE IF EXISTS games;\n\
DROP TABLE IF EXISTS authors;\n\
CREATE TABLE authors(author INTEGER PRIMARY KEY, name TEXT, through INTEGER NOT NULL, last INTEGER NOT NULL);\n\
CREATE TABLE games(code TEXT PRIMARY KEY, known INTEGER NOT NULL, period INTEGER, start INTEGER, claimed INTEGER);\n\
CREATE TABLE game_values(code TEXT NOT NULL REFERENCES games, heap INTEGER NOT NULL, value INTEGER NOT NULL, PRIMARY KEY(code, heap)) WITHOUT ROWID;\n\
CREATE TABLE blocks(place INTEGER PRIMARY KEY, author INTEGER NOT NULL REFERENCES authors, number INTEGER NOT NULL, code TEXT NOT NULL REFERENCES games, start INTEGER NOT NULL, count INTEGER NOT NULL, status TEXT NOT NULL, heap INTEGER, claimed INTEGER, truth INTEGER);\n\
CREATE TABLE claims(place INTEGER PRIMARY KEY, author INTEGER NOT NULL REFERENCES authors, number INTEGER NOT NULL, code TEXT NOT NULL REFERENCES games, start INTEGER NOT NULL, period INTEGER NOT NULL, status TEXT NOT NULL, heap INTEGER, needs INTEGER);\n\
CREATE TABLE operations(place INTEGER PRIMARY KEY, author INTEGER NOT NULL REFERENCES authors, number INTEGER NOT NULL, kind TEXT NOT NULL, code TEXT REFERENCES games, said TEXT NOT NULL);\n\
CREATE TABLE notes(place INTEGER PRIMARY KEY, author INTEGER NOT NULL REFERENCES authors, number INTEGER NOT NULL, name TEXT NOT NULL, text TEXT NOT NULL);\n\
CREATE TABLE forks(author INTEGER NOT NULL REFERENCES authors, number INTEGER NOT NULL, contents INTEGER NOT NULL, PRIMARY KEY(author, number)) WITHOUT ROWID;\n\
CREATE VIEW log AS SELECT author || '.' || number || coalesce(' (' || name || ')', '') || ' ' || said AS line FROM operations JOIN authors USING (author) ORDER BY place;\n";

/// What makes the indexes, and ends the script.
pub(crate) const ENDING: &[u8] = b"CREATE INDEX games_by_period ON games(period);\n\
CREATE INDEX blocks_by_game ON blocks(code, start);\n\
CREATE INDEX blocks_by_author ON blocks(author, number);\n\
CREATE INDEX claims_by_game ON claims(code, start);\n\
CREATE INDEX claims_by_author ON claims(author, number);\n\
CREATE INDEX operations_by_author ON operations(author, number);\n\
CREATE INDEX operations_by_game ON operations(code);\n\
CREATE INDEX notes_by_author ON notes(author, number);\n\
CREATE INDEX notes_by_name ON notes(name);\n\
COMMIT;\n";
