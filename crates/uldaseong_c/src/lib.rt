// The static library for C: each export calls the function of `uldaseong` that has its name, and promises the same. It is a crate of
// its own since no crate can stand on a static library, and `claims` stands on those functions.
// The clauses of each function stand twice: a `pub use` exports nothing to C, so an export is a function with clauses of its own.
#![tactic(auto)]

mod floats;
mod notes;
mod numbers;
mod records;
mod texts;
mod torn_files;
