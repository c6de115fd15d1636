//! Plans, the block decisions of a frame: reads them from bytes, checks and generates them. Allocates; does no I/O.
//!
//! A plan says how a frame is cut into leaves, how each leaf is predicted, and which coefficients are added. The crate
//! reads plans from bytes, checks them, and computes the part of each plane that a leaf covers. It takes the types of
//! block decisions from `av1_blocks`, and lemmas on lists from `av1_lists`. Its promises:
//!
//! - `parse_plan` reads exactly the bytes that the plan grammar (`specs/Grammar.antt`) spells. For all other bytes it
//!   names the first field that is cut, not valid or left over (`Malformed`). It takes time linear in the bytes. It
//!   does not allocate for each leaf: leaves lie in one list, and their coefficients in another.
//! - A `TreeWalk` gives the parts of a frame in coding order: the nodes of the partition tree, each before its own
//!   parts, and the leaves. The caller says how a node is cut. The parser uses it, and so does the writer in
//!   `av1_planwrite`.
//! - `parse_leaves` reads only the leaves, into a type of their own, `Leaves`. It is for callers that keep the header
//!   and the references of a plan in another form. `check_leaves` checks them against the header that it is given.
//!   `parse_plan_behind` makes a plan of a header, references and the bytes of leaves (`plan_behind`). A `Reader` reads
//!   the fields of a plan one by one, for formats that share them.
//! - A `Plan` was spelled by a complete proper list of fields. Its leaves are in coding order: they are the leaves of
//!   one tree of marks for each superblock of the frame (`specs/Tree.antt`, `specs/CodingOrder.antt`).
//! - The accessors say what holds for every plan that is read (`specs/ReadPlans.antt`). The numbers of the frame are in
//!   their ranges. A reference plane has as many samples as are shown, each within the frame's depth. A leaf lies on
//!   its grid, and has a chroma mode, a chroma type and chroma triples only if it carries chroma. A leaf with one side
//!   four times the other ends in the frame.
//! - A header has coded sides, which are multiples of 8, and shown sides. Nodes, leaves and transform blocks go by the
//!   coded sides, reference samples by the shown ones (`specs/Geometry.antt`). Up to the second version both are the
//!   same.
//! - The grammar has three versions, which the letters at the front name. The second adds two marks, which cut a node
//!   into four leaves that are a quarter as high or as wide. The third allows any width and height. The rest of each
//!   version is as in the one before (`specs/Versions.antt`).
//! - `check_plan` accepts exactly the plans without a faulty leaf. Otherwise it names the first faulty leaf and the
//!   first of its reasons (`specs/Validity.antt`): sizes, transforms, modes, vectors, references, and coefficients that
//!   are strictly sorted by block and place.
//! - A leaf's rectangle in a plane, the size of its transforms there and the blocks that begin in the frame are
//!   defined only here (`specs/Geometry.antt`). The check and the walk both compute them by this definition.
//! - `make_plan` gives a large plan from a number, for measurements and trials. Its bytes are those of the definition
//!   (`specs/Generator.antt`), and they are the text of a valid plan.
#![tactic(auto)]

mod access;
mod check;
mod error;
mod generate;
mod geometry;
mod header;
mod laws;
mod leaf;
mod leaves;
mod nodes;
mod parse;
mod parser;
mod part_stack;
mod plan;
mod planes;
mod reader;
mod superblocks;
mod tree_walk;

pub use check::{admits_references, check_leaves, check_plan, is_inter_size};
pub use error::{Invalid, InvalidKind, PlanError};
pub use generate::{make_plan, make_plan_in};
pub use geometry::{PlaneArea, TransformBlock, carries_chroma, plane_tx_size};
pub use header::Header;
pub use laws::{
    earlier_versions_show_what_is_coded, fronts_have_these_lengths, pieces_are_a_plan,
    texts_are_of_one_plan, the_first_version_has_the_rest, the_second_version_has_the_rest,
    the_second_version_keeps_the_first, the_third_version_keeps_the_second, valid_stays_valid,
};
pub use leaf::{ChromaMode, Leaf, LeafKind, Triple};
pub use leaves::Leaves;
pub use nodes::{Part, cut_by};
pub use parse::{parse_leaves, parse_plan, parse_plan_behind};
pub use part_stack::Stacked;
pub use plan::Plan;
pub use planes::SlotPlanes;
pub use reader::Reader;
pub use superblocks::Superblocks;
pub use tree_walk::TreeWalk;
