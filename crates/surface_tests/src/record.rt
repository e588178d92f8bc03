//! The tests of `csa_record`.

mod cut_tests;
mod flow_tests;
mod growth_tests;
mod reading_tests;
mod tests;
