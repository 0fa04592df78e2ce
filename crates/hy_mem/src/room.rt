//! How much a device in memory can still take.
ghost use Rattle.std.specs.Prelude.{◌≡◌, IsTrue};
ghost use Rattle.hy_mem.specs.Room.{is_room_for, room_after, widened};

/// Room for so many writes and syncs, of so many bytes in all.
#[derive(Clone, Copy)]
pub struct Room {
    pub calls: usize,
    pub bytes: usize,
}

impl Room {
    /// Whether there is room for one more write of so many bytes. A sync has none.
    pub fn is_for(self, bytes: usize) -> bool
        ensures { result ≡ is_room_for bytes self }
    {
        self.calls > 0 && bytes <= self.bytes
    }

    /// The room after that write.
    pub fn after(self, bytes: usize) -> Room
        requires { IsTrue (is_room_for bytes self) }
        ensures { result ≡ room_after bytes self }
    {
        Room {
            calls: self.calls - 1,
            bytes: self.bytes - bytes,
        }
    }

    /// This room, or more where it is less than that.
    pub fn widened(self, calls: usize, bytes: usize) -> Room
        ensures { result ≡ widened calls bytes self }
    {
        Room {
            calls: self.calls.max(calls),
            bytes: self.bytes.max(bytes),
        }
    }
}
