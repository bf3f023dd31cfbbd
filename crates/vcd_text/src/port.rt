//! The ports of a dump.

use av_base::Text;

/// A port: its name, and its width in bits.
#[derive(Debug)]
pub struct DumpPort {
    pub name: Text,
    pub width: u8,
}

/// By hand, so that what drops one calls this, and isn't followed through its fields.
impl Drop for DumpPort {
    fn drop(self) {
        let DumpPort { name: _, width: _ } = self;
    }
}
