//! The tests of `hash_comments`.

mod tests;
