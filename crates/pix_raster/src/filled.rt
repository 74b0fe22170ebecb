//! Memory for pixels and samples, filled at once.
ghost use Rattle.std.specs.Prelude.{◌≡◌, vec_len, replicate, IfOk};

use std::alloc::{AllocError, Global};

/// Returns `count` copies of a value, in memory that is allocated once.
///
/// The copies are written one after the other, which the compiler turns into a fill by words.
/// `Vec::from_elem` clones them one by one.
///
/// # Errors
///
/// `AllocError` where the request for memory was refused.
pub(crate) fn filled<T: Copy>(alloc: Global, value: T, count: usize) -> Result<Vec<T>, AllocError>
    ensures items { IfOk result (λ made. made.items ≡ replicate count value) }
    ensures count { IfOk result (λ made. vec_len made ≡ count) }
{
    let mut made = Vec::with_capacity(alloc, count)?;
    made.resize(count, value)?;
    Ok(made)
}
