//! Replays recorded calls on one block, and compares their answers. Reads a slice, allocates, does no I/O.
//!
//! A row is a call and the answer that it gave elsewhere. The crate reads the fields of a row ([`Fields`]) and replays
//! the call ([`BlockCall`]). The answer ([`Answer`]) is a status and a digest of what was written ([`Digest`]). It is
//! compared with the answer that the row wants ([`Wanted`]). What the crate promises:
//!
//! - A call and a wanted answer are read from exactly the bytes that spell them (`specs/Calls.antt`).
//! - Drawn samples and numbers are those of `specs/Drawn.antt`. There are as many as requested, each within its bits.
//! - A digest is the CRC-32 of the bytes that were added to it (`specs/Digest.antt`).
//! - An answer agrees with a wanted answer exactly if the status, the text, the number of bytes and the digest are the
//!   same.
//! - A call only fails if an allocation fails.
#![tactic(auto)]

mod answer;
mod availability;
mod call;
mod called;
mod digest;
mod drawn;
mod edge;
mod error;
mod fields;
mod intra;
mod luma;
mod motion;
mod network;
mod samples;
mod transform;
mod way;

pub use answer::{Answer, Wanted};
pub use call::BlockCall;
pub use digest::Digest;
pub use error::CallFault;
pub use fields::Fields;
