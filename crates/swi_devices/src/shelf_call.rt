ghost use Rattle.std.specs.Prelude.{◌≡◌, IfOk, OnErr, Err, string_bytes};

use std::alloc::Global;
use swi_outside::ShelfError;

/// The two calls of a shelf.
#[derive(Clone, Copy, Debug, PartialEq, Eq)]
pub enum ShelfCall {
    Get,
    Put,
}

/// The name of a call, to be kept beside it where the call fails.
pub fn key_of(alloc: Global, name: &str) -> Result<String, ShelfError>
    ensures ok { IfOk result (λ key. string_bytes key ≡ name.now) }
    ensures err { OnErr result (result ≡ Err ShelfError.Memory) }
{
    String::from_str(alloc, name).map_err(|_| ShelfError::Memory)
}
