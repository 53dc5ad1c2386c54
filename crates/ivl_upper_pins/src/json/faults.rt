//! What `?` converts a fault of an interval, and a failed allocation, to.
ghost use Rattle.std.specs.Prelude.{◌≡◌, ℕ};
ghost use Rattle.ivl_json.specs.declared.faults.ItemFault.{ItemFault};
ghost use Rattle.ivl_json.specs.declared.faults.JsonFault.{JsonFault};

use ivl_json::{ItemFault, JsonFault};
use std::alloc::AllocError;

/// Returns the fault of the same name.
pub fn fault_of_interval(fault: ItemFault) -> JsonFault
    ensures shape { fault ≡ ItemFault.Shape → result ≡ JsonFault.Shape }
    ensures length { (n : ℕ) → fault ≡ ItemFault.Length n → result ≡ JsonFault.Length n }
    ensures number { fault ≡ ItemFault.Number → result ≡ JsonFault.Number }
    ensures range { fault ≡ ItemFault.Range → result ≡ JsonFault.Range }
{
    JsonFault::from(fault)
}

/// Returns `Memory`.
pub fn fault_of_memory(error: AllocError) -> JsonFault
    ensures { result ≡ JsonFault.Memory }
{
    JsonFault::from(error)
}
