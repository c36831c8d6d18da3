use super::event::Event;
use super::script::{Act, Item, Reply, Script};
use super::value::Value;
use num_core::lists::TryCopy;
use sqlite_items::Items;
use std::alloc::{AllocError, Global};

impl TryCopy for Value {
    fn copy(&self, _alloc: Global) -> Result<Value, AllocError> {
        Ok(*self)
    }
}

impl TryCopy for Act {
    fn copy(&self, alloc: Global) -> Result<Act, AllocError> {
        Ok(match self {
            Act::Set(name, value) => Act::Set(name.copy(alloc)?, *value),
            Act::Peek(name, at, count) => Act::Peek(name.copy(alloc)?, *at, *count),
            Act::Poke(name, at, bytes) => Act::Poke(name.copy(alloc)?, *at, bytes.copy(alloc)?),
        })
    }
}

impl TryCopy for Item {
    fn copy(&self, alloc: Global) -> Result<Item, AllocError> {
        Ok(match self {
            Item::Call(name, arguments) => Item::Call(name.copy(alloc)?, arguments.copy(alloc)?),
            Item::Host(act) => Item::Host(act.copy(alloc)?),
        })
    }
}

impl TryCopy for Reply {
    fn copy(&self, alloc: Global) -> Result<Reply, AllocError> {
        Ok(Reply {
            acts: self.acts.copy(alloc)?,
            values: self.values.copy(alloc)?,
        })
    }
}

impl TryCopy for Script {
    fn copy(&self, alloc: Global) -> Result<Script, AllocError> {
        Ok(Script {
            globals: self.globals.copy(alloc)?,
            replies: self.replies.copy(alloc)?,
            grows: Items::from_slice(alloc, self.grows.as_slice())?,
            items: self.items.copy(alloc)?,
        })
    }
}

impl TryCopy for Event {
    fn copy(&self, alloc: Global) -> Result<Event, AllocError> {
        Ok(match self {
            Event::Started => Event::Started,
            Event::Failed => Event::Failed,
            Event::HostCall(import, arguments, globals) => {
                Event::HostCall(*import, arguments.copy(alloc)?, globals.copy(alloc)?)
            }
            Event::Returned(item, results, globals) => {
                Event::Returned(*item, results.copy(alloc)?, globals.copy(alloc)?)
            }
            Event::Trapped(item, globals) => Event::Trapped(*item, globals.copy(alloc)?),
            Event::Uncaught(item, tag, payload, globals) => {
                Event::Uncaught(*item, *tag, payload.copy(alloc)?, globals.copy(alloc)?)
            }
            Event::Peeked(bytes) => Event::Peeked(bytes.copy(alloc)?),
            Event::OutOfRange => Event::OutOfRange,
            Event::NoReply(import) => Event::NoReply(*import),
            Event::Done => Event::Done,
            Event::Full => Event::Full,
        })
    }
}
