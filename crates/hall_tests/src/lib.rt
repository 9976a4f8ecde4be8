//! Tests of the book: what is kept of a journal, when it folds, and the entries of its seats in turn.
#![tactic(auto)]

#[cfg(test)]
mod books;
