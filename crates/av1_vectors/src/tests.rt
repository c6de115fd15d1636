// Tests, over memory, of what recorded rows can't show, and worked examples. `support` has what tests share.
// Rows can't show counts, earlier contents of planes, readers and writers, builders, printed text and failing memory.
// The examples are of library calls, and of plans that are short enough to be read.
mod builder;
mod chroma;
mod compared;
mod cuts;
mod edges;
mod memory;
mod motion;
mod moved;
mod order;
mod parts;
mod predictors;
mod program;
mod refused;
mod residues;
mod rules;
mod sequence;
mod sides;
mod sizes;
mod state;
mod streams;
mod support;
mod text;
mod transforms;
mod written;
