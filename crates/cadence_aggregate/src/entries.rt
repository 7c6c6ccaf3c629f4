//! Puts entries into the tables in which contexts are held.
ghost use Rattle.std.specs.Option.{ok_or};
ghost use Rattle.std.specs.Prelude.{◌≡◌, IfNone, IfSome, OnErr, OnOk, string_bytes};
ghost use Rattle.std.specs.String.{string_eq};
ghost use Rattle.lru.specs.LruCache.{lru_cache, put_entries};
ghost use Rattle.cadence_errors.specs.declared.SinkError.TheVariants.{OutOfMemory};

use crate::memory::out_of_memory;
use cadence_errors::SinkError;
use lru::LruCache;
use std::alloc::Global;

// Returns a copy of a text. The only error is that memory ran out.
pub(crate) fn copy_text(alloc: Global, text: &str, fault: &mut SinkError) -> Option<String>
    ensures ok { IfSome result (λ copy. string_bytes copy ≡ text.now) }
    ensures memory { IfNone result (fault.new ≡ OutOfMemory) }
{
    match String::from_str(alloc, text) {
        Ok(copy) => Some(copy),
        Err(_) => out_of_memory(fault),
    }
}

// Puts an entry into a table, in place of the one with the same key. If the table is full and has no such entry, the least
// recent one goes. The only error is that memory ran out.
pub(crate) fn put_entry<V: Drop>(
    table: &mut LruCache<String, V>,
    key: String,
    value: V,
    fault: &mut SinkError,
) -> Option<()>
    ensures entries { OnOk (ok_or result fault.new) (table.new
        ≡ lru_cache (put_entries string_eq table.old key value) table.old.cap) }
    ensures err { OnErr (ok_or result fault.new) (table.new ≡ table.old) }
    ensures memory { IfNone result (fault.new ≡ OutOfMemory) }
{
    match table.put(key, value) {
        Ok(_) => Some(()),
        Err(_) => out_of_memory(fault),
    }
}
