// Memory that is reserved before it is used, for a list of a known number of places.
// Promise: a room is empty, and what is put into its places needs no more memory.
#![tactic(auto)]

ghost use Rattle.std.specs.Prelude.{◌≡◌, ◌≤◌, [], IfOk, vec_capacity};

use std::alloc::{AllocError, Global};

// The memory of a list of as many places.
#[derive(Drop)]
pub struct Room<T, const PLACES: usize> {
    items: Vec<T>,
    ghost empty: { items.items ≡ [] },
    ghost roomy: { PLACES ≤ vec_capacity items },
}

impl<T, const PLACES: usize> Room<T, PLACES> {
    // The only call that can lack memory.
    pub fn reserve(heap: Global) -> Result<Room<T, PLACES>, AllocError>
        ensures { IfOk result (λ room. (room.items.items ≡ []) × (PLACES ≤ vec_capacity room.items)) }
    {
        Ok(Room {
            items: Vec::with_capacity(heap, PLACES)?,
        })
    }

    // The list, still empty.
    pub fn into_items(self) -> Vec<T>
        ensures empty { result.items ≡ [] }
        ensures roomy { PLACES ≤ vec_capacity result }
    {
        let Room { items } = self;
        items
    }
}
