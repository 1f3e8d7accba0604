//! Lists in memory of their own.
ghost use Rattle.std.specs.Prelude.{◌≡◌, IfOk, IfErr};

use crate::TdfFault;
use std::alloc::Global;

/// The items in memory of their own, with no room to spare.
pub fn copied<T: Copy>(alloc: Global, items: &[T]) -> Result<Vec<T>, TdfFault>
    ensures copied { IfOk result (λ copy. copy.items ≡ items.now) }
    ensures memory { IfErr result (λ fault. fault ≡ TdfFault.Memory) }
{
    Vec::from_slice(alloc, items).map_err(|_| TdfFault::Memory)
}
