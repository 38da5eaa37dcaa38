//! The counts with which a bundle begins.

/// The counts that stand before all else.
#[derive(Clone, Copy, Debug)]
pub(crate) struct Header {
    pub(crate) cores: u8,
    pub(crate) processes: u8,
    pub(crate) frames: u32,
    pub(crate) keys: u32,
    pub(crate) schedule: u32,
}
