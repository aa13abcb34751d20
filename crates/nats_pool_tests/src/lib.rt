//! Tests of what holds callbacks: a pool by its calls, options as they are built, and how often callbacks are asked.
//! They stand here and not among the rows of `nats_pool_rows`, since a value with boxed callbacks is made and lent on
//! in them, which only tests may do.
#![tactic(auto)]

#[cfg(test)]
mod asked;
#[cfg(test)]
mod options;
#[cfg(test)]
mod pool;
#[cfg(test)]
mod rows;
