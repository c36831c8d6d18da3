// What a host does to the state between and inside calls.
ghost use Rattle.std.specs.Prelude.{◌≡◌, ℕ, List, OnOk, Some, false, if◌then◌else◌};
ghost use Rattle.host_kit.specs.declared.event.Event.TheVariants as events;
ghost use Rattle.core1_ast.specs.declared.module.parts.ExportDesc1.TheVariants as exports;
ghost use Rattle.meaning_core1.specs.Store.{show};
ghost use Rattle.meaning_core1.specs.Hosting.{set1, peek1, poke1, act1, acts1};

use crate::exports::value_from;
use crate::mark::Mark1;
use crate::program::Program;
use crate::state::State;
use core1_ast::module::ExportDesc1;
use host_kit::{Act, Event, Value};
use num_core::lists::Bytes;
use std::alloc::AllocError;

impl<'a> Program<'a> {
    /// Does one act. It fails for want of memory alone.
    pub fn act(&self, act: &Act, state: &mut State) -> Result<(), AllocError>
        ensures { OnOk result (state.new ≡ act1 self.now act.now state.old) }
    {
        match act {
            Act::Set(name, value) => {
                state.set(self.export(name.as_str()), *value);
                Ok(())
            }
            Act::Peek(name, at, count) => state.peek(self.export(name.as_str()), *at, *count),
            Act::Poke(name, at, bytes) => {
                state.poke(self.export(name.as_str()), *at, bytes.as_slice())
            }
        }
    }

    /// Does acts in order. It fails for want of memory alone.
    pub fn acts(&self, acts: &[Act], state: &mut State) -> Result<(), AllocError>
        ensures { OnOk result (state.new ≡ acts1 self.now acts.now state.old) }
    {
        for act in acts {
            self.act(act, state)?;
        }
        Ok(())
    }
}

impl<'a> State<'a> {
    /// Sets the exported global to a value.
    fn set(&mut self, export: Option<ExportDesc1>, value: Value)
        ensures { self.new ≡ set1 export value self.old }
    {
        if let Some(ExportDesc1::Global(global)) = export {
            self.put_global(global, value_from(value));
        }
    }

    /// Shows so many bytes of the exported memory from an address on, or that they are not all inside.
    fn peek(&mut self, export: Option<ExportDesc1>, at: u64, count: u32) -> Result<(), AllocError>
        ensures { OnOk result (self.new ≡ peek1 export at count self.old) }
    {
        let Some(ExportDesc1::Memory(memory)) = export else {
            return Ok(());
        };
        let Some(memory) = self.memories.as_slice().get(memory as usize) else {
            return Ok(());
        };
        let event = match memory.read(at, 0, count as usize) {
            Some(bytes) => Event::Peeked(Bytes::from_slice(self.alloc, bytes)?),
            None => Event::OutOfRange,
        };
        self.show(event)
    }

    /// Writes bytes into the exported memory from an address on, or shows that they are not all inside.
    fn poke(&mut self, export: Option<ExportDesc1>, at: u64, bytes: &[u8]) -> Result<(), AllocError>
        ensures { OnOk result (self.new ≡ poke1 export at bytes.now self.old) }
    {
        let Some(ExportDesc1::Memory(memory)) = export else {
            return Ok(());
        };
        if self.write(memory, at, bytes) {
            Ok(())
        } else {
            self.show(Event::OutOfRange)
        }
    }

    /// Writes bytes into a memory from an address on, and says whether they are all inside, where there is a memory.
    fn write(&mut self, memory: u32, at: u64, bytes: &[u8]) -> bool
        ensures shown { poke1 (Some (exports.Memory memory)) at bytes.now self.old ≡ (if result then self.new else show events.OutOfRange self.old) }
        ensures kept { result ≡ false → self.new ≡ self.old }
    {
        match self.memories.get_mut(memory as usize) {
            Some(memory) => memory.write(at, 0, bytes),
            None => true,
        }
    }

    /// Shows the host an event. It fails for want of memory alone.
    pub fn show(&mut self, event: Event) -> Result<(), AllocError>
        ensures { OnOk result (self.new ≡ show event self.old) }
    {
        self.trace.push(Mark1::Shows(event))?;
        Ok(())
    }
}
