//! Reads the reference samples of all slots. Moves the reader forward; allocates the planes.

ghost use Rattle.std.specs.Prelude.{◌≡◌, ◌≤◌, length, take, IfOk};

use crate::error::PlanError;
use crate::header::Header;
use crate::planes::SlotPlanes;
use crate::reader::Reader;
use std::alloc::{AllocError, Global};

/// The number of samples that are widened at a time.
const RUN: usize = 64;

/// The bytes, each as a sample.
fn widened(alloc: Global, bytes: &[u8]) -> Result<Vec<u16>, AllocError>
    ensures { IfOk result (λ samples. samples.items ≡ bytes.now) }
{
    let mut samples = Vec::with_capacity(alloc, bytes.len())?;
    let mut wide = [0; RUN];
    let runs = bytes.len() / RUN;
    for run in 0..runs {
        let start = run * RUN;
        widen(&bytes[start..start + RUN], &mut wide);
        samples.extend_from_slice(&wide[..RUN])?;
    }
    let rest = &bytes[runs * RUN..];
    widen(rest, &mut wide);
    samples.extend_from_slice(&wide[..rest.len()])?;
    Ok(samples)
}

/// The bytes, each as a sample, at the front of `wide`.
fn widen(bytes: &[u8], wide: &mut [u16])
    requires { length bytes.now ≤ length wide.old }
    ensures front { take (length bytes.now) wide.new ≡ bytes.now }
    ensures len { length wide.new ≡ length wide.old }
{
    for (i, byte) in bytes.iter().enumerate() {
        wide[i] = u16::from(*byte);
    }
}

impl<'a> Reader<'a> {
    ghost use Rattle.std.specs.Prelude.{◌≡◌, ◌+◌, ◌*◌, ◌≤◌, ◌<◌, length, IfOk, vec_len, is_some};
    ghost use Rattle.av1_plan.specs.Format.{read_field, read};
    ghost use Rattle.av1_plan.specs.Grammar.{sample, plane, reference, slot_planes, references};
    ghost use Rattle.av1_plan.specs.Plan.{planes_value, slot_value, slot_values, ArePresent};
    ghost use Rattle.av1_plan.specs.Geometry.{has_slot};
    ghost use Rattle.av1_plan.specs.Reading.{Gives, input, Moves};

    /// Reads a sample.
    #[tactic(auto, using(crate::proofs::Narrow::narrow))]
    fn sample(&mut self, depth: u8) -> Result<u16, PlanError>
        requires depth { depth ≤ 12 }
        ensures read { Gives (λ x. (x, input self.new)) result (read_field (sample depth) (input self.old)) }
        ensures moves { Moves self.old self.new }
    {
        let at = self.at;
        if depth == 8 {
            let value = self.any_byte()?;
            return Ok(u16::from(value));
        }
        let value = self.any_u16()?;
        if value < 1u16 << depth {
            Ok(value)
        } else {
            Err(PlanError::Malformed { at })
        }
    }

    /// Reads the samples of a plane, one by one.
    #[tactic(auto, using(crate::proofs::Lists::collects), unfolding(crate::specs::Grammar::plane))]
    fn plane_by_samples(
        &mut self,
        alloc: Global,
        depth: u8,
        len: usize,
    ) -> Result<Vec<u16>, PlanError>
        requires depth { depth ≤ 12 }
        ensures read { Gives (λ x. (x.items, input self.new)) result (read (plane depth len) (input self.old)) }
        ensures moves { Moves self.old self.new }
    {
        let mut samples = Vec::new(alloc);
        for _ in 0..len {
            let sample = self.sample(depth)?;
            samples.push(sample)?;
        }
        Ok(samples)
    }

    /// Reads the samples of a plane at depth 8: `len` bytes.
    fn plane_of_bytes(&mut self, alloc: Global, len: usize) -> Result<Vec<u16>, PlanError>
        requires long { len ≤ length self.old.rest.now }
        ensures read { Gives (λ x. (x.items, input self.new)) result (read (plane 8 len) (input self.old)) }
        ensures moves { Moves self.old self.new }
    {
        let rest = self.rest;
        let samples = widened(alloc, &rest[..len])?;
        self.rest = &rest[len..];
        self.at += len as u32;
        Ok(samples)
    }

    /// Reads the samples of a plane. Samples of one byte are read all at once, if there are enough bytes.
    fn plane(&mut self, alloc: Global, depth: u8, len: usize) -> Result<Vec<u16>, PlanError>
        requires depth { depth ≤ 12 }
        ensures read { Gives (λ x. (x.items, input self.new)) result (read (plane depth len) (input self.old)) }
        ensures moves { Moves self.old self.new }
    {
        if depth == 8 && len <= self.rest.len() {
            return self.plane_of_bytes(alloc, len);
        }
        self.plane_by_samples(alloc, depth, len)
    }

    /// Reads the three planes of a slot.
    #[tactic(auto, using(crate::proofs::Formats::read_bind), unfolding(crate::specs::Grammar::reference))]
    fn reference(&mut self, alloc: Global, header: &Header) -> Result<SlotPlanes, PlanError>
        requires depth { header.now.depth ≤ 12 }
        requires width { header.now.width ≤ 2048 }
        requires height { header.now.height ≤ 2048 }
        ensures read { Gives (λ x. (planes_value x, input self.new)) result (read (reference header.now) (input self.old)) }
        ensures moves { Moves self.old self.new }
    {
        let y = self.plane(alloc, header.depth, header.plane_len(0))?;
        let u = self.plane(alloc, header.depth, header.plane_len(1))?;
        let v = self.plane(alloc, header.depth, header.plane_len(2))?;
        Ok(SlotPlanes { y, u, v })
    }

    /// Reads the planes of a slot, if the mask has the slot.
    #[tactic(auto, using(crate::proofs::Formats::read_bind), unfolding(crate::specs::Grammar::slot_planes))]
    fn slot_planes(
        &mut self,
        alloc: Global,
        header: &Header,
        slot: usize,
    ) -> Result<Option<SlotPlanes>, PlanError>
        requires slot { slot < 8 }
        requires depth { header.now.depth ≤ 12 }
        requires width { header.now.width ≤ 2048 }
        requires height { header.now.height ≤ 2048 }
        ensures read { Gives (λ x. (slot_value x, input self.new)) result (read (slot_planes header.now slot) (input self.old)) }
        ensures present { IfOk result (λ x. is_some x ≡ has_slot header.now slot) }
        ensures moves { Moves self.old self.new }
    {
        if header.has_slot(slot) {
            let planes = self.reference(alloc, header)?;
            return Ok(Some(planes));
        }
        Ok(None)
    }

    /// Reads the planes of the eight slots.
    #[tactic(auto, using(crate::proofs::Lists::collects), unfolding(crate::specs::Grammar::references))]
    pub fn references(
        &mut self,
        alloc: Global,
        header: &Header,
    ) -> Result<Vec<Option<SlotPlanes>>, PlanError>
        requires depth { header.now.depth ≤ 12 }
        requires width { header.now.width ≤ 2048 }
        requires height { header.now.height ≤ 2048 }
        ensures read { Gives (λ x. (slot_values x.items, input self.new)) result (read (references header.now) (input self.old)) }
        ensures moves { Moves self.old self.new }
        ensures count { IfOk result (λ x. vec_len x ≡ 8) }
        ensures present { IfOk result (λ x. ArePresent header.now x.items 8) }
    {
        let mut slots = Vec::new(alloc);
        for slot in 0..8 {
            let planes = self.slot_planes(alloc, header, slot)?;
            slots.push(planes)?;
        }
        Ok(slots)
    }
}
