//! An object cache of a kind of one's own: messages, which are handed out empty and with room for 64 bytes.
#![tactic(auto)]

ghost use Rattle.std.specs.Prelude.{◌≡◌, ◌↔◌, ◌≤◌, [], length, IfOk, OnErr, vec_capacity};
ghost use Rattle.kmem_model.specs.CacheState.{sizes_of, opening};
ghost use Rattle.kmem_model.specs.CacheHistory.{MayEnter};
ghost use Rattle.kmem_model.specs.declared.cache_entry.CacheEntry.TheVariants.{Full};
ghost use Rattle.using_cache.specs.Messages.{WasLent};

use kmem_buf::Kind;
use object_cache::{AllocRefused, ObjectCache};
use slab_source::Supply;
use std::alloc::{AllocError, Global};

#[cfg(test)]
mod tests;

/// Makes messages in the heap.
#[derive(Drop)]
pub struct Messages {
    alloc: Global,
}

impl Kind for Messages {
    ghost use Rattle.std.specs.Prelude.{◌≡◌, ◌≤◌, [], false, vec_capacity};

    type Object = Vec<u8>;

    // Between two uses a message is empty, and has room for 64 bytes.
    ghost constructed = { λ message. (message.items ≡ []) × (64 ≤ vec_capacity message) };

    // The heap may have no room for a message.
    ghost never_refuses = { false };

    fn construct(&mut self) -> Result<Vec<u8>, AllocError> {
        Vec::with_capacity(self.alloc, 64)
    }

    fn destruct(&mut self, _message: Vec<u8>) {}
}

/// A cache of so many slabs with 8 messages each.
pub fn create(alloc: Global, slabs: u32) -> Result<ObjectCache<Messages>, AllocError>
    requires { (1 ≤ slabs) × (slabs ≤ 4096) }
    ensures { IfOk result (λ cache. cache.state ≡ opening (sizes_of slabs 8 1)) }
{
    let supply = Supply::create(alloc, slabs)?;
    ObjectCache::create(alloc, Messages { alloc }, supply, slabs, 8, 1)
}

/// Borrows a message for this text, and answers the number of its buffer. There is no memory to ask for while the text is written.
pub fn with_message(cache: &mut ObjectCache<Messages>, text: &[u8]) -> Result<u32, AllocRefused>
    requires short { length text.now ≤ 64 }
    ensures lent { IfOk result (λ number. WasLent cache.old.state number cache.new.state) }
    ensures full { (result ≡ Err AllocRefused.Full) ↔ MayEnter cache.old.state Full }
    ensures refused { OnErr result (cache.new ≡ cache.old) }
{
    let mut buffer = cache.alloc()?;
    let number = buffer.number();
    write(buffer.object_mut(), text);
    cache.free(buffer);
    Ok(number)
}

// Writes the text into the message, and wipes it.
fn write(message: &mut Vec<u8>, text: &[u8])
    requires short { length text.now ≤ 64 }
    requires ready { (message.old.items ≡ []) × (64 ≤ vec_capacity message.old) }
    ensures { (message.new.items ≡ []) × (64 ≤ vec_capacity message.new) }
{
    for byte in text {
        message.push_reserved(*byte);
    }
    message.clear();
}
