// Loads and stores of vectors (the standard's "Memory Instructions").
ghost use Rattle.meaning_new.specs.declared.val.Val.{Val};
ghost use Rattle.std.specs.Prelude.{◌≡◌, ◌+◌, List, [], ◌∷◌, slice_get, option_map, option_and_then, Some, None, false, if◌then◌else◌};
ghost use Rattle.lane_core.specs.Shapes.{lane_bytes, lane_load_bytes};
ghost use Rattle.lane_core.specs.Memory.{loaded_vector, loaded_lane, vector_bytes};
ghost use Rattle.evaluation_kit.specs.Leaves.{below, read_range};
ghost use Rattle.meaning_new.specs.declared.val.Val.TheVariants as vals;
ghost use Rattle.meaning_new.specs.Store.{on_store, missing, number};
ghost use Rattle.run_kit.specs.Changes.{Lie};
ghost use Rattle.meaning_new.specs.Memories.{write_at, load_vector, store_vector, load_lane, store_lane};
ghost use Rattle.run_new.specs.Leaves.{DoesInStore};

use crate::slot::Slot;
use crate::store::Store;
use crate::values::fits_or_trap;
use crate::vectors::vector;
use evaluation_kit::Jump;
use lane_core::operations::{
    lane_bytes, load_bytes, loaded, loaded_lane, stored_lane, vector_bytes,
};
use lane_core::operators::LaneLoad;
use lane_core::vector::Shape;
use run_kit::Change;
use wasm_ast::module::MemArg;

impl<'a> Store<'a> {
    /// What a load of a vector does: the address lies on the top.
    pub fn load_vector(&self, op: LaneLoad, at: MemArg, top: Slot) -> Change<Slot>
        ensures { DoesInStore (on_store (load_vector op at)) (top ∷ []) self.now result self.now }
    {
        match self.loaded_vector(op, at, top) {
            Some(value) => Change::Put(1, value),
            None => Change::Exit(0, Jump::Trap),
        }
    }

    /// The vector that a load reads, or none where its bytes are not all inside.
    fn loaded_vector(&self, op: LaneLoad, at: MemArg, base: Slot) -> Option<Slot>
        ensures { result ≡ option_and_then (λ m. option_map (λ bytes. vals.V128 (loaded_vector op bytes)) (read_range (number base + at.offset) (lane_load_bytes op) m.bytes)) (slice_get self.now.memories at.memory) }
    {
        let memory = self.memories.as_slice().get(at.memory as usize)?;
        let bytes = memory.read(base, at.offset, load_bytes(op))?;
        Some(Slot::v128(loaded(op, bytes).0))
    }

    /// What v128.store does: the vector lies on the top, and the address below it.
    pub fn store_vector(&mut self, at: MemArg, top: Slot, next: Slot) -> Change<Slot>
        ensures { DoesInStore (on_store (store_vector at)) (top ∷ next ∷ []) self.old result self.new }
    {
        fits_or_trap(self.put_vector(at, top, next), 2)
    }

    /// Does it where the bytes are inside, and says whether they are; else nothing changes.
    fn put_vector(&mut self, at: MemArg, top: Slot, next: Slot) -> bool
        ensures outcome { (operands : List Val) → Lie missing (top ∷ next ∷ []) operands → store_vector at operands self.old ≡ (if result then Some (below (below operands), self.new) else None) }
        ensures kept { result ≡ false → self.new ≡ self.old }
    {
        let bytes = bytes_of(top);
        self.put_bytes(at, next, &bytes)
    }

    /// Writes bytes where they are inside, and says whether they are; else nothing changes.
    fn put_bytes(&mut self, at: MemArg, base: Slot, bytes: &[u8]) -> bool
        ensures outcome { option_and_then (λ m. write_at at.memory m (number base + at.offset) bytes.now self.old) (slice_get self.old.memories at.memory) ≡ (if result then Some self.new else None) }
        ensures kept { result ≡ false → self.new ≡ self.old }
    {
        match self.memories.get_mut(at.memory as usize) {
            Some(memory) => memory.write(base, at.offset, bytes),
            None => false,
        }
    }

    /// What a load of a lane does: the vector lies on the top, and the address below it.
    pub fn load_lane(
        &self,
        shape: Shape,
        at: MemArg,
        lane: u8,
        top: Slot,
        next: Slot,
    ) -> Change<Slot>
        ensures { DoesInStore (on_store (load_lane shape at lane)) (top ∷ next ∷ []) self.now result self.now }
    {
        match self.with_lane(shape, at, lane, top, next) {
            Some(value) => Change::Put(2, value),
            None => Change::Exit(0, Jump::Trap),
        }
    }

    /// The vector with the lane that a load reads, or none where its bytes are not all inside.
    fn with_lane(&self, shape: Shape, at: MemArg, lane: u8, value: Slot, base: Slot) -> Option<Slot>
        ensures { result ≡ option_and_then (λ m. option_map (λ bytes. vals.V128 (loaded_lane shape lane (number value) bytes)) (read_range (number base + at.offset) (lane_bytes shape) m.bytes)) (slice_get self.now.memories at.memory) }
    {
        let memory = self.memories.as_slice().get(at.memory as usize)?;
        let bytes = memory.read(base, at.offset, lane_bytes(shape))?;
        Some(Slot::v128(loaded_lane(shape, vector(value), lane, bytes).0))
    }

    /// What a store of a lane does: the vector lies on the top, and the address below it.
    pub fn store_lane(
        &mut self,
        shape: Shape,
        at: MemArg,
        lane: u8,
        top: Slot,
        next: Slot,
    ) -> Change<Slot>
        ensures { DoesInStore (on_store (store_lane shape at lane)) (top ∷ next ∷ []) self.old result self.new }
    {
        fits_or_trap(self.put_lane(shape, at, lane, top, next), 2)
    }

    /// Does it where the bytes are inside, and says whether they are; else nothing changes.
    fn put_lane(&mut self, shape: Shape, at: MemArg, lane: u8, top: Slot, next: Slot) -> bool
        ensures outcome { (operands : List Val) → Lie missing (top ∷ next ∷ []) operands → store_lane shape at lane operands self.old ≡ (if result then Some (below (below operands), self.new) else None) }
        ensures kept { result ≡ false → self.new ≡ self.old }
    {
        let Some(memory) = self.memories.get_mut(at.memory as usize) else {
            return false;
        };
        let bytes = stored_lane(shape, vector(top), lane);
        memory.write(next, at.offset, &bytes[..lane_bytes(shape)])
    }
}

/// The bytes of a vector.
fn bytes_of(value: Slot) -> [u8; 16]
    ensures { result ≡ vector_bytes (number value) }
{
    vector_bytes(vector(value))
}
