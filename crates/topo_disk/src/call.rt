/// A call of a disk, with what it was given. Offsets and lengths are in bytes.
#[derive(Drop)]
pub enum Call {
    Size,
    Read { at: u64, len: usize },
    Write { at: u64, bytes: Vec<u8> },
    Sync,
}

/// A call of a disk, and whether it failed.
#[derive(Drop)]
pub struct Called {
    pub call: Call,
    pub failed: bool,
}
