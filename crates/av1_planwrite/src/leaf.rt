//! Writes the fields of a leaf: to a slice without allocating, or at the end of a text, which may allocate.

ghost use Rattle.std.specs.Prelude.{◌≡◌, ◌+◌, ◌++◌, ◌≤◌, length, take, drop};
ghost use Rattle.av1_planwrite.specs.Given.{FitsTriple};
ghost use Rattle.av1_planwrite.specs.Text.{byte, pair, quad, motion_text, motions_text, chroma_text, kind_text, uv_type_text, leading_text, triple_text};

use crate::pieces::{put_byte, put_pair};
use crate::text::Text;
use av1_blocks::{MotionVector, OutOfMemory, RefType, TxSize, TxType};
use av1_plan::{ChromaMode, LeafKind, Triple};

// ---- before the coefficients

/// The greatest number of bytes of a leaf before its coefficients.
pub const MOST_LEADING: usize = 14;

/// Writes a reference and its vector.
#[tactic(auto, using(crate::proofs::Rests::rest_later), unfolding(crate::specs::Text::motion_text))]
fn put_motion(slice: &mut [u8], at: usize, reference: RefType, mv: MotionVector) -> usize
    requires { at + 5 ≤ length slice.old }
    ensures end { result ≡ at + 5 }
    ensures text { take result slice.new ≡ take at slice.old ++ motion_text reference mv }
    ensures rest { drop result slice.new ≡ drop result slice.old }
{
    let at = put_byte(slice, at, reference.number());
    let at = put_pair(slice, at, mv.row.cast_unsigned());
    put_pair(slice, at, mv.col.cast_unsigned())
}

/// Writes two references, each with its vector.
#[tactic(auto, using(crate::proofs::Rests::rest_later), unfolding(crate::specs::Text::motions_text))]
fn put_motions(
    slice: &mut [u8],
    at: usize,
    references: [RefType; 2],
    mvs: [MotionVector; 2],
) -> usize
    requires { at + 10 ≤ length slice.old }
    ensures end { result ≡ at + 10 }
    ensures text { take result slice.new ≡ take at slice.old ++ motions_text references mvs }
    ensures rest { drop result slice.new ≡ drop result slice.old }
{
    let [first, second] = references;
    let [first_mv, second_mv] = mvs;
    let at = put_motion(slice, at, first, first_mv);
    put_motion(slice, at, second, second_mv)
}

/// Writes how the chroma of an intra leaf is predicted, if the leaf carries chroma.
#[tactic(auto, using(crate::proofs::Rests::rest_later), unfolding(crate::specs::Text::chroma_text))]
fn put_chroma_mode(slice: &mut [u8], at: usize, chroma: Option<ChromaMode>) -> usize
    requires { at + 3 ≤ length slice.old }
    ensures from { at ≤ result }
    ensures end { result ≤ at + 3 }
    ensures text { take result slice.new ≡ take at slice.old ++ chroma_text chroma }
    ensures rest { drop result slice.new ≡ drop result slice.old }
{
    match chroma {
        None => at,
        Some(ChromaMode::Plain { mode, step }) => {
            let at = put_byte(slice, at, mode.number());
            put_byte(slice, at, step.cast_unsigned())
        }
        Some(ChromaMode::Cfl { alpha_u, alpha_v }) => {
            let at = put_byte(slice, at, 13);
            let at = put_byte(slice, at, alpha_u.cast_unsigned());
            put_byte(slice, at, alpha_v.cast_unsigned())
        }
    }
}

/// Writes how a leaf is predicted.
#[tactic(auto, using(crate::proofs::Rests::rest_later), unfolding(crate::specs::Text::kind_text))]
fn put_kind(slice: &mut [u8], at: usize, kind: LeafKind) -> usize
    requires { at + 11 ≤ length slice.old }
    ensures from { at ≤ result }
    ensures end { result ≤ at + 11 }
    ensures text { take result slice.new ≡ take at slice.old ++ kind_text kind }
    ensures rest { drop result slice.new ≡ drop result slice.old }
{
    match kind {
        LeafKind::Intra { mode, step, chroma } => {
            let at = put_byte(slice, at, mode.number());
            let at = put_byte(slice, at, step.cast_unsigned());
            put_chroma_mode(slice, at, chroma)
        }
        LeafKind::Single {
            mode,
            reference,
            mv,
        } => {
            let at = put_byte(slice, at, mode.number());
            put_motion(slice, at, reference, mv)
        }
        LeafKind::Compound {
            mode,
            references,
            mvs,
        } => {
            let at = put_byte(slice, at, mode.number());
            put_motions(slice, at, references, mvs)
        }
    }
}

/// Writes the type of the chroma transforms, if the leaf carries chroma.
#[tactic(auto, unfolding(crate::specs::Text::uv_type_text))]
fn put_uv_type(slice: &mut [u8], at: usize, uv_type: Option<TxType>) -> usize
    requires { at + 1 ≤ length slice.old }
    ensures from { at ≤ result }
    ensures end { result ≤ at + 1 }
    ensures text { take result slice.new ≡ take at slice.old ++ uv_type_text uv_type }
    ensures rest { drop result slice.new ≡ drop result slice.old }
{
    match uv_type {
        None => at,
        Some(uv_type) => put_byte(slice, at, uv_type.number()),
    }
}

/// Writes the fields of a leaf before its coefficients to the front of a slice, and returns their length in bytes. The
/// rest of the slice is unchanged.
#[tactic(auto, using(crate::proofs::Rests::rest_later))]
pub fn put_leading(
    slice: &mut [u8],
    kind: LeafKind,
    tx_size: TxSize,
    tx_type: TxType,
    uv_type: Option<TxType>,
) -> usize
    requires { 14 ≤ length slice.old }
    ensures end { result ≤ 14 }
    ensures text { take result slice.new ≡ leading_text kind tx_size tx_type uv_type }
    ensures rest { drop result slice.new ≡ drop result slice.old }
{
    let at = put_kind(slice, 0, kind);
    let at = put_byte(slice, at, tx_size.number());
    let at = put_byte(slice, at, tx_type.number());
    put_uv_type(slice, at, uv_type)
}

// ---- coefficients

// A field of one byte, a field of two and a field of four.
fn three_fields(block: u8, place: u16, value: u32) -> [u8; 7]
    ensures { result ≡ byte block ++ pair place ++ quad value }
{
    let [low, high] = place.to_le_bytes();
    let [a, b, c, d] = value.to_le_bytes();
    [block, low, high, a, b, c, d]
}

/// The bytes of a coefficient's fields.
#[tactic(auto, unfolding(crate::specs::Text::triple_text))]
pub fn triple_fields(triple: &Triple) -> [u8; 7]
    ensures text { result ≡ triple_text triple.now }
    ensures fits { FitsTriple triple.now }
{
    three_fields(triple.block, triple.place, triple.value.cast_unsigned())
}

impl Text {
    ghost use Rattle.std.specs.Prelude.{◌≡◌, ◌++◌, ◌<◌, ◌^◌, length, true, is_some, OnOk};
    ghost use Rattle.std.specs.List.{All};
    ghost use Rattle.av1_planwrite.specs.Fronts.{Begins};
    ghost use Rattle.av1_planwrite.specs.Given.{FitsTriple};
    ghost use Rattle.av1_planwrite.specs.Text.{leading_text, triple_text, triples_text, chroma_triples_text, fields_text};

    /// Writes the fields of a leaf before its coefficients.
    fn leading(
        &mut self,
        kind: LeafKind,
        tx_size: TxSize,
        tx_type: TxType,
        uv_type: Option<TxType>,
    ) -> Result<(), OutOfMemory>
        ensures text { OnOk result (self.new.bytes.items ≡ self.old.bytes.items ++ leading_text kind tx_size tx_type uv_type) }
        ensures front { Begins self.old.bytes.items self.new.bytes.items }
    {
        let mut fields = [0; MOST_LEADING];
        let len = put_leading(&mut fields, kind, tx_size, tx_type, uv_type);
        self.copy(&fields[..len])
    }

    /// Writes a coefficient.
    fn triple(&mut self, triple: &Triple) -> Result<(), OutOfMemory>
        ensures text { OnOk result (self.new.bytes.items ≡ self.old.bytes.items ++ triple_text triple.now) }
        ensures front { Begins self.old.bytes.items self.new.bytes.items }
        ensures fits { OnOk result (FitsTriple triple.now) }
    {
        self.copy(&triple_fields(triple))
    }

    /// Writes the coefficients of a plane, first their count.
    #[tactic(auto, unfolding(crate::specs::Text::triples_text))]
    fn triples(&mut self, triples: &[Triple]) -> Result<(), OutOfMemory>
        requires { length triples.now < 2 ^ 16 }
        ensures text { OnOk result (self.new.bytes.items ≡ self.old.bytes.items ++ triples_text triples.now) }
        ensures fit { OnOk result (All FitsTriple triples.now) }
        ensures front { Begins self.old.bytes.items self.new.bytes.items }
    {
        self.pair(triples.len() as u16)?;
        for triple in triples {
            self.triple(triple)?;
        }
        Ok(())
    }

    /// Writes the coefficients of U and V, if the leaf carries chroma.
    #[tactic(auto, unfolding(crate::specs::Text::chroma_triples_text))]
    fn chroma_triples(
        &mut self,
        carried: bool,
        u: &[Triple],
        v: &[Triple],
    ) -> Result<(), OutOfMemory>
        requires u { length u.now < 2 ^ 16 }
        requires v { length v.now < 2 ^ 16 }
        ensures text { OnOk result (self.new.bytes.items ≡ self.old.bytes.items ++ chroma_triples_text carried u.now v.now) }
        ensures u_fit { OnOk result (carried ≡ true → All FitsTriple u.now) }
        ensures v_fit { OnOk result (carried ≡ true → All FitsTriple v.now) }
        ensures front { Begins self.old.bytes.items self.new.bytes.items }
    {
        if !carried {
            return Ok(());
        }
        self.triples(u)?;
        self.triples(v)
    }

    /// Writes a leaf with its coefficients of Y, U and V.
    #[tactic(auto, unfolding(crate::specs::Text::fields_text))]
    pub fn leaf(
        &mut self,
        kind: LeafKind,
        tx_size: TxSize,
        tx_type: TxType,
        uv_type: Option<TxType>,
        y: &[Triple],
        u: &[Triple],
        v: &[Triple],
    ) -> Result<(), OutOfMemory>
        requires y { length y.now < 2 ^ 16 }
        requires u { length u.now < 2 ^ 16 }
        requires v { length v.now < 2 ^ 16 }
        ensures text { OnOk result (self.new.bytes.items ≡ self.old.bytes.items ++ fields_text kind tx_size tx_type uv_type y.now u.now v.now) }
        ensures y_fit { OnOk result (All FitsTriple y.now) }
        ensures u_fit { OnOk result (is_some uv_type ≡ true → All FitsTriple u.now) }
        ensures v_fit { OnOk result (is_some uv_type ≡ true → All FitsTriple v.now) }
        ensures front { Begins self.old.bytes.items self.new.bytes.items }
    {
        self.leading(kind, tx_size, tx_type, uv_type)?;
        self.triples(y)?;
        self.chroma_triples(uv_type.is_some(), u, v)
    }
}
