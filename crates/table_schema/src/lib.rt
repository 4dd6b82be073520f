//! The tables of tenants in SQLite: their schema, the values of their rows, the reading of rows,
//! and why a call fails.
#![tactic(auto)]

mod ask;
mod columns;
pub mod fault;
pub mod find;
pub mod first;
pub mod lists;
mod one_test;
pub mod pages;
mod parts;
mod read;
pub mod refuse;
pub mod rows;
pub mod schema;
mod tables;
pub mod values;
