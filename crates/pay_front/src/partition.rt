//! The partition of an account.
ghost use Rattle.std.specs.Prelude.{◌≡◌, ◌==◌, if◌then◌else◌, Some, None};
ghost use Rattle.pay_front.specs.Partition.{partition_of};

/// The partition whose log has the lines of an account, of a number of partitions. Of no partitions it is none.
pub fn partition_of(account: u32, of: u8) -> Option<u8>
    ensures { result ≡ (if of == 0 then None else Some (partition_of of account)) }
{
    if of == 0 {
        return None;
    }
    Some((account % u32::from(of)) as u8)
}
