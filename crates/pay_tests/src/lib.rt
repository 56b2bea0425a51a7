//! The tests of all crates but the program's own, from taps to sessions over lanes and closes into a ledger in memory, each by public
//! calls alone. They are a crate of their own since one with tests is proved twice. They show what no clause says: that each public
//! call succeeds with ample memory, that each generic one is met by a type, and what comes of flushes, desks, stores and allocations
//! that fail. What is worked out in rows is data for `tests/program.py`, which runs the built program on it.
#![tactic(auto)]

#[cfg(test)]
mod accounts;
#[cfg(test)]
mod books;
#[cfg(test)]
mod desks;
#[cfg(test)]
mod faults;
#[cfg(test)]
mod fix_pages;
#[cfg(test)]
mod fixes;
#[cfg(test)]
mod given;
#[cfg(test)]
mod hopper;
#[cfg(test)]
mod lanes;
#[cfg(test)]
mod ledgers;
#[cfg(test)]
mod pages;
#[cfg(test)]
mod restores;
#[cfg(test)]
mod sample;
#[cfg(test)]
mod sessions;
#[cfg(test)]
mod steps;
#[cfg(test)]
mod streams;
#[cfg(test)]
mod taps;
#[cfg(test)]
mod tills;
