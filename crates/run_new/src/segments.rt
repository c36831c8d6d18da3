// The segments of a module, which are written in order (the standard's "Modules", "Instantiation").
ghost use Rattle.std.specs.Prelude.{◌≡◌, ℕ, List, [], ◌∷◌, set, Some, None, if◌then◌else◌, IfOk, option_and_then};
ghost use Rattle.evaluation_kit.specs.Leaves.{below};
ghost use Rattle.typed_trees.specs.declared.module.TypedFn.{TypedFn};
ghost use Rattle.typed_trees.specs.Typed.{module_of};
ghost use Rattle.meaning_new.specs.Instances.{place_elem, place_elems, place_data, place_datas, place_segments};

use crate::constants::constant;
use crate::slot::Slot;
use crate::store::Store;
use std::alloc::AllocError;
use wasm_ast::module::{Element, Mode, Module, Segment};

impl<'a> Store<'a> {
    /// Writes the segments in order, and says whether all of them are inside: where one is not, the store is no longer
    /// of use. It fails for want of memory alone.
    pub fn place_segments(&mut self, part: &Module) -> Result<bool, AllocError>
        ensures { (fns : List TypedFn) → IfOk result (λ fit. place_segments (module_of (part.now, fns)) self.old ≡ (if fit then Some self.new else None)) }
    {
        if self.place_elems(part.elems.as_slice())? {
            self.place_datas(part.datas.as_slice())
        } else {
            Ok(false)
        }
    }

    /// Writes element segments, of which the first has this index.
    fn place_elems(&mut self, elems: &[Element]) -> Result<bool, AllocError>
        ensures { IfOk result (λ fit. place_elems 0 elems.now self.old ≡ (if fit then Some self.new else None)) }
    {
        for (place, elem) in elems.iter().enumerate() {
            let place = u32::try_from(place).map_err(|_| AllocError)?;
            if !self.place_elem(place, elem)? {
                return Ok(false);
            }
        }
        Ok(true)
    }

    /// Writes data segments.
    fn place_datas(&mut self, datas: &[Segment]) -> Result<bool, AllocError>
        ensures { IfOk result (λ fit. place_datas 0 datas.now self.old ≡ (if fit then Some self.new else None)) }
    {
        for (place, segment) in datas.iter().enumerate() {
            let place = u32::try_from(place).map_err(|_| AllocError)?;
            if !self.place_data(place, segment)? {
                return Ok(false);
            }
        }
        Ok(true)
    }

    /// Writes an element segment where it is active, and drops it unless it is passive.
    fn place_elem(&mut self, place: u32, elem: &Element) -> Result<bool, AllocError>
        ensures { IfOk result (λ fits. place_elem place elem.now elem.now.mode self.old ≡ (if fits then Some self.new else None)) }
    {
        match &elem.mode {
            Mode::Active(table, offset) => {
                let count = u32::try_from(elem.items.len()).map_err(|_| AllocError)?;
                let at = constant(self.alloc, self.globals.as_slice(), offset.as_slice())?;
                if self.init_table(place, *table, Slot::i32(count), Slot::i32(0), at) {
                    self.drop_elem(place);
                    Ok(true)
                } else {
                    Ok(false)
                }
            }
            Mode::Passive => Ok(true),
            Mode::Declarative => {
                self.drop_elem(place);
                Ok(true)
            }
        }
    }

    /// Writes a data segment where it is active, and then drops it.
    fn place_data(&mut self, place: u32, segment: &Segment) -> Result<bool, AllocError>
        ensures { IfOk result (λ fits. place_data place segment.now segment.now.mode self.old ≡ (if fits then Some self.new else None)) }
    {
        match &segment.mode {
            Mode::Active(memory, offset) => {
                let count = u32::try_from(segment.bytes.as_slice().len()).map_err(|_| AllocError)?;
                let at = constant(self.alloc, self.globals.as_slice(), offset.as_slice())?;
                if self.init_memory(place, *memory, Slot::i32(count), Slot::i32(0), at) {
                    self.drop_data(place);
                    Ok(true)
                } else {
                    Ok(false)
                }
            }
            Mode::Passive | Mode::Declarative => Ok(true),
        }
    }
}
