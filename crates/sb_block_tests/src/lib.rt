//! Tests of blocks beside the machine: the same steps of a client and a server, made on copies of frames and by the machine.
//!
//! Inside: the bundle (`bundle`), a machine with copies of its frames (`board`), both compared over a whole run (`runs`), steps
//! of code that the rewriter has moved (`marks`), and single steps with what they ask for, read and write (`steps`). Not inside:
//! code for any other crate.
//!
//! ```text
//! ask(alloc, &mut board, 0, 8, &mut asked)?      // frames are given as they are asked for, until there is a block
//! ```
#![tactic(auto)]

#[cfg(test)]
mod board;
#[cfg(test)]
mod bundle;
#[cfg(test)]
mod marks;
#[cfg(test)]
mod runs;
#[cfg(test)]
mod same;
#[cfg(test)]
mod steps;
