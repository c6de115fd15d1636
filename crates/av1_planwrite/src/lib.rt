//! Writes plans as bytes: the reverse of the plan grammar. Allocates; only `bare_plan` does input and output.
//!
//! [`write_plan`] returns the text of a plan. [`write_bare`] returns the text of the same plan without its
//! coefficients. [`bare_plan`] reads a plan from a source and appends its text without coefficients to a sink. So a
//! plan that was read can be passed on, and an encoder can be shown its predictions without residuals.
//!
//! An encoder fills a [`PlanBuilder`] field by field while it encodes. At the end the builder returns the text of the
//! plan. If the caller keeps the bytes elsewhere, a [`Progress`] says what the plan needs and accepts. Then
//! [`header_fields`], [`put_planes`], [`put_leading`] and [`triple_fields`] give the bytes to append, and do not
//! allocate.
//!
//! This crate uses `av1_plan` for the grammar and for plans in memory. It uses `av1_streams` and `av1_recon` for
//! sources, sinks and the contracts of calls that read a plan and write.
//!
//! What the calls promise:
//!
//! - One definition, `plan_text` (`specs/Text.antt`), says what the text of a plan is. The sizes of the leaves decide
//!   the marks.
//! - Bytes that are a plan are its text. So writing gives back what was read, and no two inputs are the same plan.
//! - Without its coefficients a plan is a plan, and a valid plan stays valid.
//! - `bare_plan` keeps the contract of all calls that read a plan and write (`Converts` of `av1_recon`).
//!
//! What a builder promises, unless memory runs out:
//!
//! - It rejects a call exactly if the grammar needs another field, or an argument isn't valid there, or there would be
//!   too many bytes.
//! - At `Ok` the call appends exactly its own fields. After an error the builder is unchanged.
//! - The bytes are always a proper list of fields of the grammar. When the builder is done, they are the text of the
//!   plan whose header, references and leaves were given (`specs/Building.antt`).
#![tactic(auto)]

mod admitted;
mod bare;
mod builder;
mod error;
mod header;
mod laws;
mod leaf;
mod nodes;
mod pieces;
mod progress;
mod samples;
mod state;
mod text;
mod write;

pub use av1_plan::{Part, Stacked, Superblocks};
pub use bare::bare_plan;
pub use builder::PlanBuilder;
pub use error::BuildError;
pub use header::header_fields;
pub use laws::{
    a_bare_plan_is_a_plan, a_bare_plan_is_valid, a_plan_has_one_text, the_first_leaf_fixes_the_mark,
};
pub use leaf::{MOST_LEADING, put_leading, triple_fields};
pub use pieces::{put, put_byte, put_pair};
pub use progress::Progress;
pub use samples::{put_planes, slot_len};
pub use state::State;
pub use write::{write_bare, write_plan};
