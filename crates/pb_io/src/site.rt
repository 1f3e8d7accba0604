//! A disk and a link to the stations.
ghost use Rattle.std.specs.Prelude.{◌≡◌, ◌<◌, ◌≤◌, length, IfOk};
ghost use Rattle.pb_io.specs.Disk.{ReadsOnly};
ghost use Rattle.pb_io.specs.Faults.{HasCause};
ghost use Rattle.pb_io.specs.Site.{Sends, Receives, Ticks};
ghost use Rattle.pb_io.specs.View.{Elapses};

use crate::{Disk, Failed};

/// A disk and a link to the stations. The world grows at its end, by link calls alone; a world that is known
/// has the frames sent, the bytes heard and the quiet ticks in their order, and the stations' history where the site
/// knows that.
///
/// `quiets` counts the quiet ticks; it doesn't fall, and stands still at 2^64 - 1.
pub trait Site: Disk {
    /// Sends a frame that isn't empty. Where it fails, the frame may have been sent or not.
    fn send(&mut self, frame: &[u8]) -> Result<(), Failed>
        requires { 0 < length frame.now }
        ensures world { Sends (Self.view self.old).link.world (Self.view self.new).link.world
            frame.now result }
        ensures quiets { (Self.view self.new).link.quiets ≡ (Self.view self.old).link.quiets }
        ensures disk { ReadsOnly (Self.view self.old) (Self.view self.new) }
        ensures disk_faults { (Self.view self.new).faults ≡ (Self.view self.old).faults }
        ensures time { Elapses (Self.view self.old) (Self.view self.new) }
        ensures cause { HasCause (Self.view self.old).link.faults (Self.view self.new).link.faults
            result };

    /// Gives the bytes that came, at most as many as `to`, which isn't empty, has room for; 0 for a tick in which
    /// nothing came. The end of a stream is a call that fails.
    fn recv(&mut self, to: &mut [u8]) -> Result<usize, Failed>
        requires { 0 < length to.old }
        ensures bound { IfOk result (λ n. n ≤ length to.old) }
        ensures world { Receives (Self.view self.old).link.world (Self.view self.new).link.world
            to.new result }
        ensures quiets { Ticks (Self.view self.old).link.quiets (Self.view self.new).link.quiets result }
        ensures disk { ReadsOnly (Self.view self.old) (Self.view self.new) }
        ensures disk_faults { (Self.view self.new).faults ≡ (Self.view self.old).faults }
        ensures time { Elapses (Self.view self.old) (Self.view self.new) }
        ensures cause { HasCause (Self.view self.old).link.faults (Self.view self.new).link.faults
            result };
}
