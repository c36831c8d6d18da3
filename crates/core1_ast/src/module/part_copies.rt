use super::parts::{Element1, Export1, Global1, Import1, Module1, Segment1};
use num_core::lists::TryCopy;
use sqlite_items::Items;
use std::alloc::{AllocError, Global};

impl TryCopy for Import1 {
    fn copy(&self, alloc: Global) -> Result<Import1, AllocError> {
        Ok(Import1 {
            module: self.module.copy(alloc)?,
            name: self.name.copy(alloc)?,
            desc: self.desc,
        })
    }
}

impl TryCopy for Global1 {
    fn copy(&self, alloc: Global) -> Result<Global1, AllocError> {
        Ok(Global1 {
            ty: self.ty,
            mutable: self.mutable,
            init: self.init.copy(alloc)?,
        })
    }
}

impl TryCopy for Export1 {
    fn copy(&self, alloc: Global) -> Result<Export1, AllocError> {
        Ok(Export1 {
            name: self.name.copy(alloc)?,
            desc: self.desc,
        })
    }
}

impl TryCopy for Element1 {
    fn copy(&self, alloc: Global) -> Result<Element1, AllocError> {
        Ok(Element1 {
            table: self.table,
            offset: self.offset.copy(alloc)?,
            items: self.items.copy(alloc)?,
        })
    }
}

impl TryCopy for Segment1 {
    fn copy(&self, alloc: Global) -> Result<Segment1, AllocError> {
        Ok(Segment1 {
            memory: self.memory,
            offset: self.offset.copy(alloc)?,
            bytes: self.bytes.copy(alloc)?,
        })
    }
}

impl TryCopy for Module1 {
    fn copy(&self, alloc: Global) -> Result<Module1, AllocError> {
        Ok(Module1 {
            types: self.types.copy(alloc)?,
            imports: self.imports.copy(alloc)?,
            funcs: self.funcs.copy(alloc)?,
            tables: Items::from_slice(alloc, self.tables.as_slice())?,
            memories: Items::from_slice(alloc, self.memories.as_slice())?,
            globals: self.globals.copy(alloc)?,
            exports: self.exports.copy(alloc)?,
            start: self.start,
            elems: self.elems.copy(alloc)?,
            codes: self.codes.copy(alloc)?,
            datas: self.datas.copy(alloc)?,
        })
    }
}
