//! Parses the leaves of a plan in coding order. Takes bytes from a `Reader`; allocates lists of leaves and triples.

use crate::error::PlanError;
use crate::header::Header;
use crate::leaf::{Leaf, Triple};
use crate::leaves::Leaves;
use crate::nodes::Part;
use crate::reader::Reader;
use crate::tree_walk::TreeWalk;
use av1_blocks::BlockSize;
use std::alloc::Global;

/// The leaves and triples that were read, and the bytes that are left.
#[derive(Drop)]
pub struct Parser<'a> {
    pub reader: Reader<'a>,
    pub leaves: Vec<Leaf>,
    pub triples: Vec<Triple>,
}

impl<'a> Parser<'a> {
    ghost use Rattle.std.specs.Prelude.{◌≡◌, ◌<◌, ◌≤◌, true, false, IfOk, IfErr, OnOk, []};
    ghost use Rattle.av1_plan.specs.Values.{leaves_value};
    ghost use Rattle.av1_plan.specs.Format.{add, ended, lone, read};
    ghost use Rattle.av1_plan.specs.Grammar.{leaf, superblocks};
    ghost use Rattle.av1_plan.specs.Parsing.{state, IsSound};
    ghost use Rattle.av1_plan.specs.Reading.{Fails, Gives, Moves, input};
    ghost use Rattle.av1_plan.specs.Remaining.{parts_format};
    ghost use Rattle.av1_plan.specs.Walk.{remaining};

    /// Reads the leaf of this size at column `x` and row `y` of luma.
    #[tactic(auto, using(crate::proofs::Formats::adding))]
    fn leaf(&mut self, header: &Header, size: BlockSize, x: u16, y: u16) -> Result<(), PlanError>
        requires { IsSound self.old }
        ensures read { Gives (λ _. state self.new) result (add (lone (leaf header.now size x y)) (state self.old)) }
        ensures takes { OnOk result (self.old.reader.at < self.new.reader.at) }
        ensures moves { Moves self.old.reader self.new.reader }
        ensures sound { OnOk result (IsSound self.new) }
    {
        let leaf = self.reader.leaf(header, size, x, y, &mut self.triples)?;
        self.leaves.push(leaf)?;
        Ok(())
    }

    /// Reads the next part of the walk, if one remains: the mark of a node, or a leaf.
    fn next_part(&mut self, header: &Header, walk: &mut TreeWalk) -> Result<bool, PlanError>
        requires sound { IsSound self.old }
        requires frame { walk.old.header ≡ header.now }
        // Reading all parts that remain has the same result before and after.
        ensures read { OnOk result
            (add (parts_format header.now (remaining walk.new)) (state self.new) ≡ add (parts_format header.now (remaining walk.old)) (state self.old)) }
        ensures fails { IfErr result (λ e. Fails e (add (parts_format header.now (remaining walk.old)) (state self.old))) }
        ensures end { IfOk result (λ more. more ≡ false → remaining walk.new ≡ []) }
        ensures takes { IfOk result (λ more. more ≡ true → self.old.reader.at < self.new.reader.at) }
        ensures moves { Moves self.old.reader self.new.reader }
        ensures sound { OnOk result (IsSound self.new) }
        ensures frame { walk.new.header ≡ header.now }
    {
        match walk.first() {
            None => Ok(false),
            Some(Part::Node { level, x, y }) => {
                let cut = self.reader.mark(header, level, x, y)?;
                walk.cut(cut);
                Ok(true)
            }
            Some(Part::Leaf { size, x, y }) => {
                self.leaf(header, size, x, y)?;
                walk.pass();
                Ok(true)
            }
        }
    }

    /// Reads the leaves of all superblocks.
    fn superblocks(&mut self, header: &Header) -> Result<(), PlanError>
        requires sound { IsSound self.old }
        requires width { (0 < header.now.width) × (header.now.width ≤ 2048) }
        requires height { (0 < header.now.height) × (header.now.height ≤ 2048) }
        ensures read { Gives (λ _. state self.new) result (add (superblocks header.now) (state self.old)) }
        ensures sound { OnOk result (IsSound self.new) }
    {
        let mut walk = TreeWalk::new(header);
        'parts: while self.next_part(header, &mut walk)? {}
        Ok(())
    }

    /// A parser that has read no leaves.
    fn new(alloc: Global, reader: Reader<'a>) -> Parser<'a>
        ensures sound { IsSound result }
        ensures state { state result ≡ ([], input reader.entry) }
    {
        Parser {
            reader,
            leaves: Vec::new(alloc),
            triples: Vec::new(alloc),
        }
    }

    /// Reads the leaves of a frame.
    #[tactic(auto, using(crate::proofs::Lists::collects))]
    pub fn parse(
        alloc: Global,
        reader: Reader<'a>,
        header: &Header,
    ) -> Result<Parser<'a>, PlanError>
        requires width { (0 < header.now.width) × (header.now.width ≤ 2048) }
        requires height { (0 < header.now.height) × (header.now.height ≤ 2048) }
        ensures read { Gives (λ p. state p) result (read (superblocks header.now) (input reader.entry)) }
        ensures sound { IfOk result (λ p. IsSound p) }
    {
        let mut parser = Parser::new(alloc, reader);
        parser.superblocks(header)?;
        Ok(parser)
    }

    /// The leaves that were read. A byte that is left is an error.
    pub fn finish(self) -> Result<Leaves, PlanError>
        requires { IsSound self }
        ensures { Gives (λ l. leaves_value l) result (ended (state self.entry)) }
    {
        self.reader.end()?;
        let Parser {
            reader: _,
            leaves,
            triples,
        } = self;
        Ok(Leaves { leaves, triples })
    }
}
