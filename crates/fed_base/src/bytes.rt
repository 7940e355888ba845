// Where a text's bytes stand.

ghost use Rattle.std.specs.Prelude.{◌≡◌, ◌<◌, ◌++◌, [], ◌∷◌, length, take, slice_set, IfOk, OnOk, OnErr, MatchOption};
ghost use Rattle.fed_base.specs.Texts.{bytes_of};

use crate::faults::Memory;
use std::alloc::Global;
use std::sync::Arc;

/// Bytes that one text has alone, or the first of bytes that copies share, so many as the number says.
#[derive(Drop)]
pub(crate) enum Bytes {
    Own(Vec<u8>),
    Shared(Arc<Vec<u8>>, usize),
}

impl Bytes {
    /// The bytes.
    pub(crate) fn as_slice(&self) -> &[u8]
        ensures { result.now ≡ bytes_of self.now }
    {
        match self {
            Bytes::Own(own) => own.as_slice(),
            Bytes::Shared(all, len) => first(all.as_slice(), *len),
        }
    }

    /// A copy. Of shared bytes it takes no memory: it is one owner more.
    pub(crate) fn copy(&self, alloc: Global) -> Result<Bytes, Memory>
        ensures { IfOk result (λ copy. bytes_of copy ≡ bytes_of self.now) }
    {
        match self {
            Bytes::Own(own) => Ok(Bytes::Own(Vec::from_slice(alloc, own.as_slice())?)),
            Bytes::Shared(all, len) => Ok(Bytes::Shared(Arc::try_clone(all)?, *len)),
        }
    }

    /// The same bytes, shared from now on, where there is memory for the count of their owners.
    pub(crate) fn share(self, alloc: Global) -> Bytes
        ensures { bytes_of result ≡ bytes_of self }
    {
        match self {
            Bytes::Own(mut own) => {
                own.shrink_to_fit();
                let len = own.len();
                match Arc::new(alloc, own) {
                    Ok(all) => Bytes::Shared(all, len),
                    Err(refused) => Bytes::Own(refused.value),
                }
            }
            Bytes::Shared(all, len) => Bytes::Shared(all, len),
        }
    }

    /// The bytes in a list of their own. Shared ones are copied.
    pub(crate) fn into_own(self) -> Result<Vec<u8>, Memory>
        ensures { IfOk result (λ own. own.items ≡ bytes_of self) }
    {
        match self {
            Bytes::Own(own) => Ok(own),
            Bytes::Shared(all, len) => copied(&all, len),
        }
    }

    /// Appends a byte, to a copy where the bytes are shared. After `Memory` they are as before.
    pub(crate) fn push(&mut self, byte: u8) -> Result<(), Memory>
        ensures ok { OnOk result (bytes_of self.new ≡ bytes_of self.old ++ byte ∷ []) }
        ensures err { OnErr result (bytes_of self.new ≡ bytes_of self.old) }
    {
        let mut own = match self {
            Bytes::Own(own) => {
                own.push(byte)?;
                return Ok(());
            }
            Bytes::Shared(all, len) => copied(all, *len)?,
        };
        own.push(byte)?;
        *self = Bytes::Own(own);
        Ok(())
    }

    /// Appends bytes, to a copy where the bytes are shared. After `Memory` they are as before.
    pub(crate) fn append(&mut self, bytes: &[u8]) -> Result<(), Memory>
        ensures ok { OnOk result (bytes_of self.new ≡ bytes_of self.old ++ bytes.now) }
        ensures err { OnErr result (bytes_of self.new ≡ bytes_of self.old) }
    {
        let mut own = match self {
            Bytes::Own(own) => {
                own.extend_from_slice(bytes)?;
                return Ok(());
            }
            Bytes::Shared(all, len) => copied(all, *len)?,
        };
        own.extend_from_slice(bytes)?;
        *self = Bytes::Own(own);
        Ok(())
    }

    /// Takes the last byte.
    pub(crate) fn pop(&mut self) -> Option<u8>
        ensures { MatchOption result ((bytes_of self.old ≡ []) × (bytes_of self.new ≡ []))
            (λ byte. bytes_of self.old ≡ bytes_of self.new ++ byte ∷ []) }
    {
        match self {
            Bytes::Own(own) => own.pop(),
            Bytes::Shared(all, len) => match first(all.as_slice(), *len).split_last() {
                Some((byte, rest)) => {
                    *len = rest.len();
                    Some(*byte)
                }
                None => None,
            },
        }
    }

    /// Keeps the first `len` bytes, or all where there are no more.
    pub(crate) fn truncate(&mut self, len: usize)
        ensures { bytes_of self.new ≡ take len (bytes_of self.old) }
    {
        match self {
            Bytes::Own(own) => own.truncate(len),
            Bytes::Shared(_, kept) => {
                if len < *kept {
                    *kept = len;
                }
            }
        }
    }

    /// Puts a byte in the place of another, in a copy where the bytes are shared. After `Memory` they are as before.
    pub(crate) fn set(&mut self, at: usize, byte: u8) -> Result<(), Memory>
        requires { at < length (bytes_of self.old) }
        ensures ok { OnOk result (bytes_of self.new ≡ slice_set (bytes_of self.old) at byte) }
        ensures err { OnErr result (bytes_of self.new ≡ bytes_of self.old) }
    {
        let mut own = match self {
            Bytes::Own(own) => {
                own[at] = byte;
                return Ok(());
            }
            Bytes::Shared(all, len) => copied(all, *len)?,
        };
        own[at] = byte;
        *self = Bytes::Own(own);
        Ok(())
    }
}

// The first `len` bytes, or all where there are no more.
fn first(bytes: &[u8], len: usize) -> &[u8]
    ensures { result.now ≡ take len bytes.now }
{
    if len < bytes.len() {
        &bytes[..len]
    } else {
        bytes
    }
}

// A copy of shared bytes.
fn copied(all: &Arc<Vec<u8>>, len: usize) -> Result<Vec<u8>, Memory>
    ensures { IfOk result (λ own. own.items ≡ take len all.now.value.items) }
{
    Ok(Vec::from_slice(*all.allocator(), first(all.as_slice(), len))?)
}
