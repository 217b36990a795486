//! The slots of states.
ghost use Rattle.std.specs.Prelude.{◌≡◌, ◌<◌};
ghost use Rattle.memories.specs.Slots.{slot_of};

/// The slot of a state, below 256: the exclusive-or of its eight bytes.
pub fn slot_of(state: u64) -> usize
    ensures value { result ≡ slot_of state }
    ensures within { result < 256 }
{
    usize::from(state.to_le_bytes().iter().fold(0, |slot, byte| slot ^ byte))
}
