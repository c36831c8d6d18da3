use super::parts;
use super::parts::{Element, Export, Import, Mode, Module, Segment, Table};
use num_core::lists::TryCopy;
use sqlite_items::Items;
use std::alloc::{AllocError, Global};

impl TryCopy for Import {
    fn copy(&self, alloc: Global) -> Result<Import, AllocError> {
        Ok(Import {
            module: self.module.copy(alloc)?,
            name: self.name.copy(alloc)?,
            desc: self.desc,
        })
    }
}

impl TryCopy for Table {
    fn copy(&self, alloc: Global) -> Result<Table, AllocError> {
        let init = match &self.init {
            Some(code) => Some(code.copy(alloc)?),
            None => None,
        };
        Ok(Table {
            ty: self.ty,
            limits: self.limits,
            init,
        })
    }
}

impl TryCopy for parts::Global {
    fn copy(&self, alloc: Global) -> Result<parts::Global, AllocError> {
        Ok(parts::Global {
            ty: self.ty,
            mutable: self.mutable,
            init: self.init.copy(alloc)?,
        })
    }
}

impl TryCopy for Export {
    fn copy(&self, alloc: Global) -> Result<Export, AllocError> {
        Ok(Export {
            name: self.name.copy(alloc)?,
            desc: self.desc,
        })
    }
}

impl TryCopy for Mode {
    fn copy(&self, alloc: Global) -> Result<Mode, AllocError> {
        Ok(match self {
            Mode::Active(index, offset) => Mode::Active(*index, offset.copy(alloc)?),
            Mode::Passive => Mode::Passive,
            Mode::Declarative => Mode::Declarative,
        })
    }
}

impl TryCopy for Element {
    fn copy(&self, alloc: Global) -> Result<Element, AllocError> {
        Ok(Element {
            mode: self.mode.copy(alloc)?,
            ty: self.ty,
            items: self.items.copy(alloc)?,
        })
    }
}

impl TryCopy for Segment {
    fn copy(&self, alloc: Global) -> Result<Segment, AllocError> {
        Ok(Segment {
            mode: self.mode.copy(alloc)?,
            bytes: self.bytes.copy(alloc)?,
        })
    }
}

impl TryCopy for Module {
    fn copy(&self, alloc: Global) -> Result<Module, AllocError> {
        Ok(Module {
            types: self.types.copy(alloc)?,
            imports: self.imports.copy(alloc)?,
            funcs: self.funcs.copy(alloc)?,
            tables: self.tables.copy(alloc)?,
            memories: Items::from_slice(alloc, self.memories.as_slice())?,
            tags: self.tags.copy(alloc)?,
            globals: self.globals.copy(alloc)?,
            exports: self.exports.copy(alloc)?,
            start: self.start,
            elems: self.elems.copy(alloc)?,
            data_count: self.data_count,
            codes: self.codes.copy(alloc)?,
            datas: self.datas.copy(alloc)?,
        })
    }
}
