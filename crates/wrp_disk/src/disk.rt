// A disk, as a log sees it.
ghost use Rattle.std.specs.Prelude.{◌≡◌, ◌≤◌, ◌+◌, length, take, drop, IfOk, IfSome, OnOk, OnErr};
ghost use Rattle.wrp_out.specs.Counts.{Rose};
ghost use Rattle.wrp_disk.specs.Disks.{Meaning, IsLawful, Looks, Syncs, Writes, Fails, greatest_limit};

use wrp_out::Failed;

/// Bytes that outlive a crash once they are synced.
pub trait Disk {
    /// What contracts see of the disk: its bytes, what a crash may leave of them, and its faults.
    ghost meaning: { Self → Meaning };

    /// The greatest length. No call changes it.
    fn limit(&self) -> u64
        ensures limit { result ≡ (meaning self.now).limit }
        ensures most { result ≤ greatest_limit };

    /// The number of bytes.
    fn len(&mut self) -> Result<u64, Failed>
        ensures bytes { IfOk result (λ count.
            IfSome (meaning self.old).told (λ bytes. count ≡ length bytes)) }
        ensures most { IfOk result (λ count. count ≤ (meaning self.old).limit) }
        ensures looks { Looks (meaning self.old) (meaning self.new) }
        ensures failed { OnErr result (Rose (meaning self.old).faults (meaning self.new).faults) };

    /// Copies as many bytes as there are from a place on, and `into` has room for, into the front
    /// of `into`, and answers how many.
    fn read(&mut self, at: u64, into: &mut [u8]) -> Result<usize, Failed>
        ensures fits { IfOk result (λ count. count ≤ length into.old) }
        ensures bytes { IfOk result (λ count. IfSome (meaning self.old).told
            (λ bytes. take count into.new ≡ take (length into.old) (drop at bytes))) }
        ensures others { IfOk result (λ count. IfSome (meaning self.old).told
            (λ bytes. drop count into.new ≡ drop count into.old)) }
        ensures looks { Looks (meaning self.old) (meaning self.new) }
        ensures failed { OnErr result (Rose (meaning self.old).faults (meaning self.new).faults) };

    /// Writes over what is there, and past the end. Until a sync, a crash may leave any bytes in
    /// the range.
    fn write_at(&mut self, at: u64, bytes: &[u8]) -> Result<(), Failed>
        requires fits { at + length bytes.now ≤ (meaning self.old).limit }
        requires no_gap { IfSome (meaning self.old).told (λ before. at ≤ length before) }
        ensures writes { OnOk result (Writes at bytes.now (meaning self.old) (meaning self.new)) }
        ensures tears { OnErr result
            (Fails at (length bytes.now) (meaning self.old) (meaning self.new)) }
        ensures failed { OnErr result (Rose (meaning self.old).faults (meaning self.new).faults) };

    /// After it, a crash leaves what a read gives.
    fn sync(&mut self) -> Result<(), Failed>
        ensures syncs { OnOk result (Syncs (meaning self.old) (meaning self.new)) }
        ensures looks { OnErr result (Looks (meaning self.old) (meaning self.new)) }
        ensures failed { OnErr result (Rose (meaning self.old).faults (meaning self.new).faults) };

    /// The images keep their rules.
    ghost lawful: { (disk : Self) → IsLawful (meaning disk) };
}
