//! Worked rows of the locks' calls and of attempts on the shared table, in turn and on two real threads, as tests.
//!
//! `workers` has a table's keeper with two workers, before and after their work; `turns` the runs of one section by its
//! publisher and by another worker, and `watched` both of them; `courses` a worker's requests from plan to answer;
//! `scripts` the gates that bring both into an order. `scenes` has the table of the test structure and offers of its
//! sections, `hash_scene` a hash table of one bucket, `lone_scene` the only worker of a table of any structure,
//! `attempt_scene` two workers that attempt their requests on any structure, and `bank` workers that move money between
//! accounts. The tests stand in `rows`, `hash_rows`, `tree_rows`, `move_rows`, `attempt_rows`, `block_rows`, `board_rows`
//! and `bank_rows`, and those of steps on the pure machine over the search tree in `link_rows`; what comes of most rows is
//! shown as a text, and compared in `texts`.
//!
//! All but the type that `proofs/` cites is read with the tests alone, so that it is proved once.
#![tactic(auto)]

#[cfg(test)]
mod attempt_rows;
#[cfg(test)]
mod attempt_scene;
#[cfg(test)]
mod bank;
#[cfg(test)]
mod bank_rows;
#[cfg(test)]
mod block_rows;
#[cfg(test)]
mod board_rows;
#[cfg(test)]
mod closing;
#[cfg(test)]
mod courses;
#[cfg(test)]
mod hash_rows;
#[cfg(test)]
mod hash_scene;
#[cfg(test)]
mod link_rows;
#[cfg(test)]
mod lone_scene;
#[cfg(test)]
mod move_rows;
pub mod offers;
#[cfg(test)]
mod rows;
#[cfg(test)]
mod scenes;
#[cfg(test)]
mod scripts;
#[cfg(test)]
mod texts;
#[cfg(test)]
mod tree_rows;
#[cfg(test)]
mod turns;
#[cfg(test)]
mod watched;
#[cfg(test)]
mod workers;
