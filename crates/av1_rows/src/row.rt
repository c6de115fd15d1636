//! Parses rows (a call, and the wanted answer), and replays their calls. Replaying allocates.

ghost use Rattle.std.specs.Prelude.{◌≡◌, ◌<◌, IfSome};
ghost use Rattle.av1_replay.specs.Fields.{unread};
ghost use Rattle.av1_rows.specs.Rows.{call_kind, fields_before, row_before};

use crate::run::{Program, Run};
use av1_replay::{Answer, BlockCall, CallFault, Fields, Wanted};
use std::alloc::Global;

/// How many kinds of rows there are.
pub const KINDS: usize = 12;

/// A call of one of the kinds.
#[derive(Clone, Copy)]
pub enum Call<'a> {
    /// A run of a program, kinds 0 and 1.
    Run(Run<'a>),
    /// A call on one block, kinds 2 to 11.
    Block(BlockCall),
}

impl<'a> Call<'a> {
    /// Reads the next call, of the kind with this number. `None` if the kind or a field is not valid, or fields are cut
    /// off.
    pub fn read(kind: u8, fields: &mut Fields<'a>) -> Option<Call<'a>>
        ensures kind { IfSome result (λ call. kind ≡ call_kind call) }
        ensures found { IfSome result (λ call. unread fields.old ≡ fields_before call (unread fields.new)) }
    {
        match kind {
            0 => Some(Call::Run(Run::read(Program::Reconstruction, fields)?)),
            1 => Some(Call::Run(Run::read(Program::Tools, fields)?)),
            _ => Some(Call::Block(BlockCall::read(kind, fields)?)),
        }
    }

    /// Replays the call, and returns its answer.
    ///
    /// # Errors
    ///
    /// `Malformed` if its fields are not valid after all, and `Memory`.
    pub fn replay(&self, alloc: Global) -> Result<Answer, CallFault> {
        match self {
            Call::Run(run) => run.replay(alloc),
            Call::Block(block) => block.replay(alloc),
        }
    }
}

/// A row.
#[derive(Clone, Copy)]
pub struct Row<'a> {
    /// The number of its kind, below [`KINDS`].
    pub kind: u8,
    pub call: Call<'a>,
    pub wanted: Wanted<'a>,
}

impl<'a> Row<'a> {
    /// Reads the next row: the number of its kind, the number of bytes that follow, its call and the wanted answer.
    /// `None` if the row is cut off, its kind or a field is not valid, or bytes are left over.
    pub fn read(fields: &mut Fields<'a>) -> Option<Row<'a>>
        ensures known { IfSome result (λ row. row.kind < KINDS) }
        ensures kind { IfSome result (λ row. row.kind ≡ call_kind row.call) }
        ensures found { IfSome result (λ row. unread fields.old ≡ row_before row (unread fields.new)) }
    {
        let kind = fields.byte()?;
        let mut own = Fields::new(fields.part()?);
        let call = Call::read(kind, &mut own)?;
        let wanted = Wanted::read(&mut own)?;
        if usize::from(kind) < KINDS && own.are_read() {
            Some(Row { kind, call, wanted })
        } else {
            None
        }
    }
}
