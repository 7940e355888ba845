// Copies of calls and replies.
use crate::calls::{AnchorKeys, BookCall, BookReply, Proven, ShelfCall, ShelfReply};
use fed_base::{Duplicate, Memory};
use std::alloc::Global;

impl Duplicate for Proven {
    fn copy(&self, alloc: Global) -> Result<Self, Memory> {
        let text = self.text.copy(alloc)?;
        let keys = self.keys.copy(alloc)?;
        Ok(Proven { text, keys })
    }
}

impl Duplicate for AnchorKeys {
    fn copy(&self, alloc: Global) -> Result<Self, Memory> {
        let anchor = self.anchor.copy(alloc)?;
        let keys = self.keys.copy(alloc)?;
        Ok(AnchorKeys { anchor, keys })
    }
}

impl Duplicate for ShelfCall {
    fn copy(&self, alloc: Global) -> Result<Self, Memory> {
        match self {
            ShelfCall::Look { url, moment } => Ok(ShelfCall::Look {
                url: url.copy(alloc)?,
                moment: *moment,
            }),
            ShelfCall::Put { url, text, until } => Ok(ShelfCall::Put {
                url: url.copy(alloc)?,
                text: text.copy(alloc)?,
                until: *until,
            }),
            ShelfCall::Prove { url, seal } => Ok(ShelfCall::Prove {
                url: url.copy(alloc)?,
                seal: seal.copy(alloc)?,
            }),
            ShelfCall::Purge { moment } => Ok(ShelfCall::Purge { moment: *moment }),
        }
    }
}

impl Duplicate for ShelfReply {
    fn copy(&self, alloc: Global) -> Result<Self, Memory> {
        match self {
            ShelfReply::Hit(proven) => Ok(ShelfReply::Hit(proven.copy(alloc)?)),
            ShelfReply::Miss => Ok(ShelfReply::Miss),
            ShelfReply::Done => Ok(ShelfReply::Done),
            ShelfReply::Gone => Ok(ShelfReply::Gone),
            ShelfReply::Dropped(count) => Ok(ShelfReply::Dropped(*count)),
            ShelfReply::Memory => Ok(ShelfReply::Memory),
        }
    }
}

impl Duplicate for BookCall {
    fn copy(&self, alloc: Global) -> Result<Self, Memory> {
        match self {
            BookCall::Read { anchor } => Ok(BookCall::Read {
                anchor: anchor.copy(alloc)?,
            }),
            BookCall::Epoch => Ok(BookCall::Epoch),
            BookCall::Rotate { anchor, from, keys } => Ok(BookCall::Rotate {
                anchor: anchor.copy(alloc)?,
                from: *from,
                keys: keys.copy(alloc)?,
            }),
        }
    }
}

impl Duplicate for BookReply {
    fn copy(&self, alloc: Global) -> Result<Self, Memory> {
        match self {
            BookReply::Keys { epoch, keys } => Ok(BookReply::Keys {
                epoch: *epoch,
                keys: keys.copy(alloc)?,
            }),
            BookReply::At(epoch) => Ok(BookReply::At(*epoch)),
            BookReply::Rotated(epoch) => Ok(BookReply::Rotated(*epoch)),
            BookReply::Behind(epoch) => Ok(BookReply::Behind(*epoch)),
            BookReply::NoAnchor => Ok(BookReply::NoAnchor),
            BookReply::Memory => Ok(BookReply::Memory),
        }
    }
}
