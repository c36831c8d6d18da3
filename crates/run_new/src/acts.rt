// What a host does to the state between and inside calls.
ghost use Rattle.std.specs.Prelude.{◌≡◌, OnOk, Some, false, if◌then◌else◌, slice_get};
ghost use Rattle.host_kit.specs.declared.event.Event.TheVariants as events;
ghost use Rattle.wasm_ast.specs.declared.module.parts.ExportDesc.TheVariants as exports;
ghost use Rattle.typed_trees.specs.Typed.{module_of};
ghost use Rattle.meaning_new.specs.Store.{tell};
ghost use Rattle.run_new.specs.States.{whole};
ghost use Rattle.meaning_new.specs.Host as host;
ghost use Rattle.meaning_new.specs.Host.{set_export, exported_memory, peek, poke};

use crate::program::Program;
use crate::slot::Slot;
use crate::state::State;
use crate::values::from_host;
use host_kit::{Act, Event, Value};
use num_core::lists::Bytes;
use std::alloc::AllocError;
use wasm_ast::module::ExportDesc;

impl<'a> Program<'a> {
    /// Does one act. It fails for want of memory alone.
    pub fn act(&self, act: &Act, state: &mut State) -> Result<(), AllocError>
        ensures { OnOk result (whole state.new ≡ host.act (module_of self.now) act.now (whole state.old)) }
    {
        match act {
            Act::Set(name, value) => {
                state.set(self.export(name.as_str()), *value);
                Ok(())
            }
            Act::Peek(name, at, count) => state.peek(self.export(name.as_str()), *at, *count),
            Act::Poke(name, at, bytes) => {
                state.poke(self.export(name.as_str()), *at, bytes.as_slice())
            }
        }
    }

    /// Does acts in order. It fails for want of memory alone.
    pub fn acts(&self, acts: &[Act], state: &mut State) -> Result<(), AllocError>
        ensures { OnOk result (whole state.new ≡ host.acts (module_of self.now) acts.now (whole state.old)) }
    {
        for act in acts {
            self.act(act, state)?;
        }
        Ok(())
    }
}

impl<'a> State<'a> {
    /// Sets the exported global to a value.
    fn set(&mut self, export: Option<ExportDesc>, value: Value)
        ensures { whole self.new ≡ set_export export value (whole self.old) }
    {
        if let Some(ExportDesc::Global(global)) = export {
            self.store.put_global(global, from_host(value));
        }
    }

    /// Shows so many bytes of the exported memory from an address on, or that they are not all inside.
    fn peek(&mut self, export: Option<ExportDesc>, at: u64, count: u32) -> Result<(), AllocError>
        ensures { OnOk result (whole self.new ≡ peek (exported_memory export self.old.store) at count (whole self.old)) }
    {
        let Some(ExportDesc::Memory(memory)) = export else {
            return Ok(());
        };
        let Some(memory) = self.store.memories.as_slice().get(memory as usize) else {
            return Ok(());
        };
        let event = match memory.read(Slot::i64(at), 0, count as usize) {
            Some(bytes) => Event::Peeked(Bytes::from_slice(self.store.alloc, bytes)?),
            None => Event::OutOfRange,
        };
        self.show(event)
    }

    /// Writes bytes into the exported memory from an address on, or shows that they are not all inside.
    fn poke(&mut self, export: Option<ExportDesc>, at: u64, bytes: &[u8]) -> Result<(), AllocError>
        ensures { OnOk result (whole self.new ≡ poke export (exported_memory export self.old.store) at bytes.now (whole self.old)) }
    {
        let Some(ExportDesc::Memory(memory)) = export else {
            return Ok(());
        };
        if self.write(memory, at, bytes) {
            Ok(())
        } else {
            self.show(Event::OutOfRange)
        }
    }

    /// Writes bytes into a memory from an address on, and says whether they are all inside, where there is a memory.
    fn write(&mut self, memory: u32, at: u64, bytes: &[u8]) -> bool
        ensures shown { poke (Some (exports.Memory memory)) (slice_get self.old.store.memories memory) at bytes.now (whole self.old) ≡ (if result then whole self.new else tell events.OutOfRange (whole self.old)) }
        ensures kept { result ≡ false → self.new ≡ self.old }
    {
        match self.store.memories.get_mut(memory as usize) {
            Some(memory) => memory.write(Slot::i64(at), 0, bytes),
            None => true,
        }
    }
}
