// Slots for live keys (document 02, requests 12 and 13): how they are stored, the definitions that the calls are proved to meet, and what is
// proved of the definitions. There is no code here.
#![tactic(auto)]

// The name of a key, as the crate `key_name` makes it.
#[repr(C)]
#[derive(Clone, Copy)]
pub struct Name {
    pub bytes: [u8; 8],
}

// Sixty-four slots: a word with a bit for each that is taken, slot 0 the lowest; a name for each; the number of its parent for each, 255 for none.
// The name and the parent of a free slot count for nothing.
#[repr(C)]
#[derive(Clone, Copy)]
pub struct Slots {
    pub taken: u64,
    pub names: [Name; 64],
    pub parents: [u8; 64],
}
