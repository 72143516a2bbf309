//! Tests of audits, of traces as they are written and migrated, of books, by seats, of their rings, of streams, of tallies, of the tables of names, of
//! descriptions and of processes, of the bytes of files, and of the plain program.
mod audits;
mod book_rings;
mod books;
mod descriptions;
mod extents;
mod histories;
mod migrations;
mod names;
mod plain;
mod processes;
mod rings;
mod streams;
mod tallies;
mod traces;
