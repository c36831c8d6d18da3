// The active segments of a module, of which all are tested before any is written (the standard's "Modules",
// "Instantiation").
ghost use Rattle.std.specs.Prelude.{◌≡◌, ℕ, List, true, false, if◌then◌else◌, Some, None, IfOk};
ghost use Rattle.std.specs.List.{All, list_all};
ghost use Rattle.outcome_kit.specs.Code.{Go, Leave};
ghost use Rattle.evaluation_kit.specs.declared.jump.Jump.TheVariants.{Trap};
ghost use Rattle.meaning_core1.specs.Store.{in_store};
ghost use Rattle.meaning_core1.specs.Instances.{offset_of, is_inside, element_fits, segment_fits, all_fit, with_segments, write_element, write_elements, write_segment, write_segments};
ghost use Rattle.meaning_core1.specs.Runs.{segments_status};
ghost use Rattle.run_core1.specs.Constants.{IsConstantCode, HasConstants};

use crate::constants::constant;
use crate::state::State;
use core1_ast::module::{Code1, Element1, Module1, Segment1};
use host_kit::Event;
use std::alloc::AllocError;

impl<'a> State<'a> {
    /// Writes all active segments, where all of them are inside; else nothing is written, the host sees the failure, and
    /// the answer is no. It fails for want of memory alone.
    pub fn write_all_segments(&mut self, source: &Module1) -> Result<bool, AllocError>
        requires { HasConstants source.now }
        ensures { IfOk result (λ fit. segments_status self.old (with_segments source.now self.old.store) ≡ (if fit then Go self.new else Leave Trap self.new)) }
    {
        if !self.all_fit(source) {
            self.show(Event::Failed)?;
            return Ok(false);
        }
        self.write_elements(source.elems.as_slice());
        self.write_segments(source.datas.as_slice());
        Ok(true)
    }

    /// Whether all active segments are inside.
    fn all_fit(&self, source: &Module1) -> bool
        requires { HasConstants source.now }
        ensures { result ≡ all_fit source.now self.now.store }
    {
        self.elements_fit(source.elems.as_slice()) && self.segments_fit(source.datas.as_slice())
    }

    /// Whether these element segments are inside.
    fn elements_fit(&self, elements: &[Element1]) -> bool
        requires { All (λ e. IsConstantCode e.offset) elements.now }
        ensures { result ≡ list_all (element_fits self.now.store) elements.now }
    {
        for element in elements {
            if !self.element_fits(element) {
                return false;
            }
        }
        true
    }

    /// Whether these data segments are inside.
    fn segments_fit(&self, segments: &[Segment1]) -> bool
        requires { All (λ d. IsConstantCode d.offset) segments.now }
        ensures { result ≡ list_all (segment_fits self.now.store) segments.now }
    {
        for segment in segments {
            if !self.segment_fits(segment) {
                return false;
            }
        }
        true
    }

    /// Whether an element segment is inside its table.
    fn element_fits(&self, element: &Element1) -> bool
        requires { IsConstantCode element.now.offset }
        ensures { result ≡ element_fits self.now.store element.now }
    {
        match self.tables.as_slice().get(element.table as usize) {
            Some(table) => inside(
                self.offset(&element.offset),
                element.items.len(),
                table.len(),
            ),
            None => false,
        }
    }

    /// Whether a data segment is inside its memory.
    fn segment_fits(&self, segment: &Segment1) -> bool
        requires { IsConstantCode segment.now.offset }
        ensures { result ≡ segment_fits self.now.store segment.now }
    {
        match self.memories.as_slice().get(segment.memory as usize) {
            Some(memory) => inside(
                self.offset(&segment.offset),
                segment.bytes.as_slice().len(),
                memory.len(),
            ),
            None => false,
        }
    }

    /// Where a segment begins.
    fn offset(&self, code: &Code1) -> u64
        requires { IsConstantCode code.now }
        ensures { result ≡ offset_of self.now.store code.now }
    {
        constant(self.globals.as_slice(), code.as_slice()).number()
    }

    /// Writes element segments that are inside.
    fn write_elements(&mut self, elements: &[Element1])
        requires constants { All (λ e. IsConstantCode e.offset) elements.now }
        requires inside { list_all (element_fits self.old.store) elements.now ≡ true }
        ensures { self.new ≡ in_store (write_elements elements.now self.old.store) self.old }
    {
        for element in elements {
            self.write_element(element);
        }
    }

    /// Writes data segments that are inside.
    fn write_segments(&mut self, segments: &[Segment1])
        requires constants { All (λ d. IsConstantCode d.offset) segments.now }
        requires inside { list_all (segment_fits self.old.store) segments.now ≡ true }
        ensures { self.new ≡ in_store (write_segments segments.now self.old.store) self.old }
    {
        for segment in segments {
            self.write_segment(segment);
        }
    }

    /// Writes an element segment that is inside.
    fn write_element(&mut self, element: &Element1)
        requires constants { IsConstantCode element.now.offset }
        requires inside { element_fits self.old.store element.now ≡ true }
        ensures { self.new ≡ in_store (write_element element.now self.old.store) self.old }
    {
        let at = self.offset(&element.offset);
        if let Some(table) = self.tables.get_mut(element.table as usize) {
            table.write(at as usize, element.items.as_slice());
        }
    }

    /// Writes a data segment that is inside.
    fn write_segment(&mut self, segment: &Segment1)
        requires constants { IsConstantCode segment.now.offset }
        requires inside { segment_fits self.old.store segment.now ≡ true }
        ensures { self.new ≡ in_store (write_segment segment.now self.old.store) self.old }
    {
        let at = self.offset(&segment.offset);
        if let Some(memory) = self.memories.get_mut(segment.memory as usize) {
            memory.overwrite(at as usize, segment.bytes.as_slice());
        }
    }
}

/// Whether so many items from a place on are inside a list of this length.
fn inside(at: u64, count: usize, size: usize) -> bool
    ensures { result ≡ is_inside at count (Some size) }
{
    match at.checked_add(count as u64) {
        Some(end) => end <= size as u64,
        None => false,
    }
}
