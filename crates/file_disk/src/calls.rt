//! The calls of the system on one open file.
ghost use Rattle.std.specs.Prelude.{◌≡◌, ◌<◌, ◌≤◌, List, ◌∷◌, length, take, IfOk, MatchResult};
ghost use Rattle.file_disk.specs.Call.{Call, read, unread, written, unwritten, synced, unsynced};

use std::io;

/// One open file, of which a record tells each call with its answer. Nothing is said of what a call
/// answers.
pub trait FileCalls: Drop {
    /// Each call so far, the newest first.
    ghost history: { Self → List Call };

    /// Reads some bytes from that offset on into the front of `out`, and answers how many. The end of
    /// the file is an error.
    fn read_at(&mut self, offset: u64, out: &mut [u8]) -> io::Result<usize>
        requires { 0 < length out.old }
        ensures count { IfOk result (λ count. (0 < count) × (count ≤ length out.old)) }
        ensures noted { MatchResult result
            (λ count. history self.new ≡ read offset (take count out.new) ∷ history self.old)
            (λ _. history self.new ≡ unread offset (length out.old) ∷ history self.old) };

    /// Writes a front of the bytes at that offset, and answers how many.
    fn write_at(&mut self, offset: u64, bytes: &[u8]) -> io::Result<usize>
        requires { 0 < length bytes.now }
        ensures count { IfOk result (λ count. (0 < count) × (count ≤ length bytes.now)) }
        ensures noted { MatchResult result
            (λ count. history self.new ≡ written offset (take count bytes.now) ∷ history self.old)
            (λ _. history self.new ≡ unwritten offset (length bytes.now) ∷ history self.old) };

    /// Makes what was written last.
    fn sync(&mut self) -> io::Result<()>
        ensures noted { MatchResult result
            (λ _. history self.new ≡ synced ∷ history self.old)
            (λ _. history self.new ≡ unsynced ∷ history self.old) };
}
