//! Makes a large plan from a number, for measurements and trials. Allocates the plan's bytes; does no I/O.
//!
//! `make_plan` draws a plan of 512 by 512 luma samples: every mark, every kind of leaf and the coefficients. The
//! numbers come from a linear congruential generator, whose seed is the number. `make_plan_in` draws a plan of any
//! version. In the third version the frame is up to 7 samples narrower and lower, and leaves with a side of 4 may also
//! be predicted from references.
//!
//! Proved: the bytes are those of the definition (`specs/Generator.antt`), and they are the text of a valid plan.

mod leaf;
mod make;
mod maker;
mod nodes;
mod transforms;

pub use make::{make_plan, make_plan_in};
