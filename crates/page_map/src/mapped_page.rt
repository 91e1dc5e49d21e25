//! A page that is mapped.

ghost use Rattle.std.specs.Prelude.{◌≡◌, ◌==◌, ◌&&◌};

use frame_pool::Frame;

/// The number of a page, its frame, and its permission: 4 to read, 2 to write, 1 to execute.
pub(crate) struct MappedPage {
    pub(crate) number: u64,
    pub(crate) frame: Frame,
    pub(crate) permission: u8,
}

impl MappedPage {
    /// Whether it has this number and this permission.
    pub(crate) fn has(&self, number: u64, permission: u8) -> bool
        ensures { result ≡ (self.now.number == number && self.now.permission == permission) }
    {
        self.number == number && self.permission == permission
    }

    /// The frame, which the page no longer has.
    pub(crate) fn into_frame(self) -> Frame
        ensures { result ≡ self.frame }
    {
        let MappedPage {
            number: _number,
            frame,
            permission: _permission,
        } = self;
        frame
    }
}
